// Writing the whole of a program's output: all of it is taken, or a first part of it and an error.
#![tactic(auto)]

ghost use Rattle.std.specs.Prelude.{OnOk, OnErr};
ghost use Rattle.std.specs.Io.KnownBytes.{Appends};
ghost use Rattle.standard_output.specs.Writes.{AppendsPart};

use std::io;
use std::io::{ErrorKind, Write};

// Writes until all of `bytes` is taken, or a write takes nothing or fails. What a writer held before stays in front.
pub fn write_whole<W: Write>(to: &mut W, bytes: &[u8]) -> io::Result<()>
    ensures whole { OnOk result (Appends (W.contents to.old) (W.contents to.new) bytes.now) }
    ensures part { OnErr result (AppendsPart (W.contents to.old) (W.contents to.new) bytes.now) }
{
    let mut at = 0;
    while at < bytes.len() {
        let taken = to.write(&bytes[at..])?;
        if taken == 0 {
            return Err(io::Error::from(ErrorKind::WriteZero));
        }
        at += taken;
    }
    Ok(())
}

// Reading the whole of a program's input. A read that fails is not the end of the input: an interrupted one is tried again, and after any
// other there is no input at all, so that nothing is ever made of a part of it.
#![tactic(auto)]

ghost use Rattle.std.specs.Prelude.{◌≡◌, ℕ, List, ◌-◌, ◌≤◌, length, take, IfOk};
ghost use Rattle.std.specs.declared.option.Option.{Option};
ghost use Rattle.std.specs.Io.KnownBytes.{Consumes};
ghost use Rattle.io.specs.Counts.{IsPrefixLen};
ghost use Rattle.standard_input.specs.Reads.{told, after_read, OneMore, Reached, Over, Holds, bytes};

use std::io;
use std::io::{ErrorKind, Read};

// How far reading has come: so many bytes are there, and so many more interrupted reads are put up with; all is there; or a read failed.
#[derive(Clone, Copy)]
pub enum Progress {
    Going(usize, u32),
    Whole(usize),
    Failed,
}

// What reading comes to by a read's answer, where `at` bytes of `size` were there before.
#[tactic(auto, using(crate::proofs::Laws::not_interrupted), unfolding(crate::specs::Reads::after_read))]
fn after_read(at: usize, patience: u32, size: usize, answer: io::Result<usize>) -> Progress
    requires at_most { at ≤ size }
    requires moved { IfOk answer (λ n. n ≤ size - at) }
    ensures { result ≡ after_read at patience size (told answer) }
{
    match answer {
        Ok(0) => Progress::Whole(at),
        Ok(n) if at + n == size => Progress::Whole(at + n),
        Ok(n) => Progress::Going(at + n, patience),
        Err(e) if e.kind() == ErrorKind::Interrupted && patience > 0 => {
            Progress::Going(at, patience - 1)
        }
        Err(_) => Progress::Failed,
    }
}

// One read, behind the bytes that are there.
fn read_on<R: Read>(reader: &mut R, buf: &mut [u8], at: usize, patience: u32) -> Progress
    requires { at ≤ length buf.old }
    ensures more { OneMore at patience (length buf.old) result }
    ensures size { length buf.new ≡ length buf.old }
    ensures held { (known : Option (List ℕ)) → Consumes known (R.remaining reader.old) (take at buf.old)
        → Holds result known (R.remaining reader.new) buf.new }
{
    let size = buf.len();
    let answer = reader.read(&mut buf[at..]);
    after_read(at, patience, size, answer)
}

// Reads until buf is full or the input ends, and answers how many bytes stand at the front of buf; or that a read failed.
pub fn read_whole<R: Read>(reader: &mut R, buf: &mut [u8]) -> Progress
    ensures reached { Reached (length buf.old) result }
    ensures over { Over (length buf.new) result }
    ensures held { Holds result (R.remaining reader.old) (R.remaining reader.new) buf.new }
{
    let mut at = 0;
    let mut patience = 1000000;
    loop {
        let progress = read_on(reader, buf, at, patience);
        match progress {
            Progress::Going(there, left) => {
                at = there;
                patience = left;
            }
            Progress::Whole(n) => return Progress::Whole(n),
            Progress::Failed => return Progress::Failed,
        }
    }
}

// How many bytes of buf are the input. It takes buf, so that `&buf[..n]` needs no proof file.
pub fn size(read: Progress, buf: &[u8]) -> usize
    requires { Over (length buf.now) read }
    ensures within { IsPrefixLen result buf.now }
    ensures size { bytes read ≡ length (take result buf.now) }
{
    match read {
        Progress::Going(_, _) => 0,
        Progress::Whole(n) => n,
        Progress::Failed => 0,
    }
}

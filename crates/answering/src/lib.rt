// A program around one function: the answer to what was read is written once and whole; where a read failed nothing is.
#![tactic(auto)]

ghost use Rattle.std.specs.Prelude.{◌≡◌, ℕ, ◌≤◌, List, length, OnOk, OnErr};
ghost use Rattle.std.specs.Io.KnownBytes.{Appends, Keeps};
ghost use Rattle.frame.specs.Frame.{front};
ghost use Rattle.standard_output.specs.Writes.{AppendsPart};
ghost use Rattle.standard_input.specs.Reads.{bytes, IsWhole};

use standard_input::Progress;
use std::io;
use std::io::Write;

// A function from the whole input to the whole output, `says` on the paper; `room` bytes are enough for what it prints.
pub trait Program {
    ghost says: { List ℕ → List ℕ };

    ghost room: { ℕ };

    fn text(input: &[u8], out: &mut [u8]) -> usize
        requires { room ≤ length out.old }
        ensures answer { result ≡ length (says input.now) }
        ensures out { out.new ≡ front (says input.now) out.old };
}

// Writes the answer to what was read: nothing but the paper's can be handed to it, and only of a whole input.
fn write_answer<P: Program, W: Write>(
    to: &mut W,
    read: Progress,
    input: &[u8],
    answer: &[u8],
) -> io::Result<()>
    requires { (IsWhole read input.now) × (answer.now ≡ P.says input.now) }
    ensures whole { OnOk result (Appends (W.contents to.old) (W.contents to.new) answer.now) }
    ensures part { OnErr result (AppendsPart (W.contents to.old) (W.contents to.new) answer.now) }
{
    standard_output::write_whole(to, answer)
}

// Where a read failed, nothing at all is written: a part of a sheet is no sheet. The answer is printed over `out` first.
#[tactic(auto, using(program::proofs::Printed::printed_within))]
pub fn answer<P: Program, W: Write>(
    to: &mut W,
    read: Progress,
    input: &[u8],
    out: &mut [u8],
) -> io::Result<()>
    requires input { bytes read ≡ length input.now }
    requires room { P.room ≤ length out.old }
    ensures whole { IsWhole read input.now → OnOk result (Appends (W.contents to.old) (W.contents to.new) (P.says input.now)) }
    ensures part { OnErr result (AppendsPart (W.contents to.old) (W.contents to.new) (P.says input.now)) }
    ensures failed { read ≡ Progress.Failed → Keeps (W.contents to.old) (W.contents to.new) }
{
    if let Progress::Whole(_) = read {
        let size = P::text(input, out);
        return write_answer::<P, W>(to, read, input, &out[..size]);
    }
    Ok(())
}

// The costs program: reads a table's lines from standard input and writes how many slots each row takes to standard output, or the line
// of a refusal. All between reading and writing is `cost_text`.
#![tactic(auto)]

ghost use Rattle.sheet.specs.Programs.{costs_program};

use answering::Program;

struct Costs;

impl Program for Costs {
    ghost says = { costs_program };

    ghost room = { 16448 };

    fn text(input: &[u8], out: &mut [u8]) -> usize {
        cost_text::cost_text(input, out)
    }
}

// At most 65,536 bytes are read, to the end of the input, however small the pieces are that it comes in.
fn main(rt: HostRuntime) {
    let mut buf = [0u8; 65536];
    let mut input = rt.stdin();
    let read = standard_input::read_whole(&mut input, &mut buf);
    let n = standard_input::size(read, &buf);
    let mut out = [0u8; 16448];
    let mut output = rt.stdout();
    let _ = answering::answer::<Costs, _>(&mut output, read, &buf[..n], &mut out);
}

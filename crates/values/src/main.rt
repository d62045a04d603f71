// The values program: reads a table's lines, an empty line and a solver's text from standard input and writes every row's exact value at the
// settings that it tells to standard output, or that none is claimed, or the line of a refusal. All between reading and writing is
// `values_text`.
#![tactic(auto)]

ghost use Rattle.sheet.specs.Programs.{values_program};

use answering::Program;

struct Values;

impl Program for Values {
    ghost says = { values_program };

    ghost room = { 16448 };

    fn text(input: &[u8], out: &mut [u8]) -> usize {
        settings_text::values_text(input, out)
    }
}

// At most 65,536 bytes are read, to the end of the input, however small the pieces are that it comes in.
fn main(rt: HostRuntime) {
    let mut buf = [0u8; 65536];
    let mut input = rt.stdin();
    let read = standard_input::read_whole(&mut input, &mut buf);
    let n = standard_input::size(read, &buf);
    let mut out = [0u8; 16448];
    let mut output = rt.stdout();
    let _ = answering::answer::<Values, _>(&mut output, read, &buf[..n], &mut out);
}

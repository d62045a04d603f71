// The clause program: reads a table's lines from standard input and writes its clauses as DIMACS text to standard output, or the
// line of a refusal. All between reading and writing is `clause_text`.
#![tactic(auto)]

ghost use Rattle.sheet.specs.Programs.{clause_program};

use answering::Program;

struct Clauses;

impl Program for Clauses {
    ghost says = { clause_program };

    ghost room = { 360576 };

    fn text(input: &[u8], out: &mut [u8]) -> usize {
        clause_text::clause_text(input, out)
    }
}

// At most 65,536 bytes are read, to the end of the input, however small the pieces are that it comes in.
fn main(rt: HostRuntime) {
    let mut buf = [0u8; 65536];
    let mut input = rt.stdin();
    let read = standard_input::read_whole(&mut input, &mut buf);
    let n = standard_input::size(read, &buf);
    let mut out = [0u8; 360576];
    let mut output = rt.stdout();
    let _ = answering::answer::<Clauses, _>(&mut output, read, &buf[..n], &mut out);
}

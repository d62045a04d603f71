// The costs program's output as a function of its input: how many slots each row of the table in the lines takes, or the line of a
// refusal.
#![tactic(auto)]

ghost use Rattle.std.specs.Prelude.{◌≡◌, ◌≤◌, length};
ghost use Rattle.frame.specs.Frame.{front};
ghost use Rattle.sheet.specs.Programs.{costs_program};
ghost use Rattle.cost_text.specs.Costs.{cost_text};

use table::Sheet;

// What the rows of a table cost, over the front of out; how many bytes it has.
fn print_costs(table: &[u8], out: &mut [u8]) -> usize
    requires { 16448 ≤ length out.old }
    ensures answer { result ≡ length (cost_text table.now) }
    ensures out { out.new ≡ front (cost_text table.now) out.old }
{
    let mut sheet = Sheet::start();
    match table::read(&mut sheet, table) {
        Ok(()) => row_lines::cost_lines(sheet.records(), out),
        Err(refusal) => print::refusal_line(refusal, out),
    }
}

// The costs program: what it writes to standard output stands at the front of out, of what was read from standard input; how many
// bytes it has. A row's line has at most 64.
pub fn cost_text(input: &[u8], out: &mut [u8]) -> usize
    requires { 16448 ≤ length out.old }
    ensures answer { result ≡ length (costs_program input.now) }
    ensures out { out.new ≡ front (costs_program input.now) out.old }
{
    let mut table = [0u8; 2048];
    match lines::read_lines(program::used(input), &mut table) {
        Ok(found) => print_costs(&table[..8 * found.rows as usize], out),
        Err(refusal) => print::refusal_line(refusal, out),
    }
}

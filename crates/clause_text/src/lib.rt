// The clause program's output as a function of its input: the DIMACS text of the table in the lines, or the line of a refusal.
#![tactic(auto)]

ghost use Rattle.std.specs.Prelude.{◌≡◌, false, ◌+◌, ◌*◌, ◌≤◌, length};
ghost use Rattle.frame.specs.Frame.{front};
ghost use Rattle.sheet.specs.Calls.{◌giving◌, left, sheet_slots};
ghost use Rattle.sheet.specs.Programs.{clause_program};
ghost use Rattle.program.specs.Sheets.{sheet_of, sheet_read};
ghost use Rattle.clause_text.specs.Printing.{dimacs_text};

use circuit::Counts;
use sheet::Refusal;

// What the table counts whose slots are written, or its refusal.
fn write_clauses(table: &[u8], map: &mut [i32], slots: &mut [i32]) -> Result<Counts, Refusal>
    requires map_room { 12288 ≤ length map.old }
    requires slots_length { length slots.old ≡ 16384 }
    ensures answer { result ≡ (sheet_of table.now giving λ sheet. sheet.counts) }
    ensures slots { slots.new ≡ left (sheet_of table.now) sheet_slots slots.old }
{
    let sheet = program::write_sheet(table, map, slots)?;
    Ok(sheet.counts())
}

// The same of the table in a text's lines.
fn clauses_in(text: &[u8], map: &mut [i32], slots: &mut [i32]) -> Result<Counts, Refusal>
    requires map_room { 12288 ≤ length map.old }
    requires slots_length { length slots.old ≡ 16384 }
    ensures answer { result ≡ (sheet_read false text.now giving λ sheet. sheet.counts) }
    ensures slots { slots.new ≡ left (sheet_read false text.now) sheet_slots slots.old }
{
    let mut table = [0u8; 2048];
    let found = lines::read_lines(text, &mut table)?;
    write_clauses(&table[..8 * found.rows as usize], map, slots)
}

// The DIMACS text of a table that counts so, its slots at the front of those lent, over the front of out; how many bytes it has.
fn print_clauses(counts: Counts, slots: &[i32], out: &mut [u8]) -> usize
    requires slots_room { counts.slots ≤ length slots.now }
    requires out_room { 22 * counts.slots + 128 ≤ length out.old }
    ensures answer { result ≡ length (dimacs_text counts slots.now) }
    ensures out { out.new ≡ front (dimacs_text counts slots.now) out.old }
{
    let n = counts.slots as usize;
    let page = print::dimacs_page(counts.variables, counts.clauses, &slots[..n], 0, out);
    page.size
}

// The clause program: what it writes to standard output stands at the front of out, of what was read from standard input; how
// many bytes it has. A slot is printed in at most 22 bytes.
pub fn clause_text(input: &[u8], out: &mut [u8]) -> usize
    requires { 360576 ≤ length out.old }
    ensures answer { result ≡ length (clause_program input.now) }
    ensures out { out.new ≡ front (clause_program input.now) out.old }
{
    let mut map = [0i32; 12288];
    let mut slots = [0i32; 16384];
    match clauses_in(program::used(input), &mut map, &mut slots) {
        Ok(counts) => print_clauses(counts, &slots, out),
        Err(refusal) => print::refusal_line(refusal, out),
    }
}

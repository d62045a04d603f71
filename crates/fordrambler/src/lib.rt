// The library's front door: the calls of document 01, none of which asks anything of its caller. Each call's contract is one relation of
// crates/sheet/specs/Relations.antt; that no two outcomes meet it is stated in crates/promise/specs/Outcomes.antt, and proved.
//
// The calls over lent records, `check`, `write` and `decode`, are each a core (table::read_checked, write::write_core, decode::decode_core),
// then `fill`. A program in Rattle may take the cores, table::check_core among them, and every other call from here.
#![tactic(auto)]

ghost use Rattle.std.specs.Prelude.{◌≡◌, true, false, ◌≤◌, length};
ghost use Rattle.frame.specs.Frame.{front};
ghost use Rattle.sheet.specs.Relations.{Checks, Measures, Writes, GivesRow, Evaluates, Extends, Decodes, ReadsLines, ReadsClaim};

use circuit::Counts;
use sheet::{LinesFound, Reason, Record, Refusal};
use table::Sheet;

// The first so many records are written, the others stay.
fn fill(records: &mut [Record], from: &[Record])
    requires { length from.now ≤ length records.old }
    ensures { records.new ≡ front from.now records.old }
{
    records[..from.len()].copy_from_slice(from);
}

// Fills the records, one for each row: refusals 1 to 11.
pub fn check(table: &[u8], records: &mut [Record]) -> Result<(), Refusal>
    ensures { Checks table.now records.old result records.new }
{
    let mut sheet = Sheet::start();
    table::read_checked(&mut sheet, table, records.len())?;
    fill(records, sheet.records());
    Ok(())
}

// What the table counts: unknowns, variables, clauses and slots; refusals 1 to 10.
pub fn measure(table: &[u8]) -> Result<Counts, Refusal>
    ensures { Measures table.now result }
{
    table::measure(table)
}

// Writes the clauses into the slots, and fills the records and the literal map: refusals 1 to 13.
pub fn write(
    table: &[u8],
    records: &mut [Record],
    map: &mut [i32],
    slots: &mut [i32],
) -> Result<(), Refusal>
    ensures { Writes table.now records.old map.old slots.old result records.new map.new slots.new }
{
    let sheet = write::write_core(table, records.len(), map, slots)?;
    fill(records, sheet.records());
    Ok(())
}

// The clauses of one row, as a part of the slots: refusals 1 to 10, 13 and 22, number and place in the two lent numbers, as document 01 asks.
pub fn row_clauses<'a>(
    table: &[u8],
    slots: &'a [i32],
    row: u32,
    number: &mut u32,
    place: &mut usize,
) -> &'a [i32]
    ensures { GivesRow table.now slots.now row result.now number.new place.new }
{
    row_clauses::row_clauses(table, slots, row, number, place)
}

// Every row's numerator at values chosen for the unknowns: refusals 1 to 10, 14, 15 and 18.
pub fn evaluate(table: &[u8], values: &[i64], results: &mut [i64]) -> Result<(), Refusal>
    ensures { Evaluates table.now values.now results.old result results.new }
{
    evaluate::evaluate(table, values, results)
}

// A byte a variable, the assignment that carries the values, and whether the constraint is true of them: refusals 1 to 10, 14, 15 and 18.
pub fn extend(table: &[u8], values: &[i64], model: &mut [u8]) -> Result<bool, Refusal>
    ensures { Extends table.now values.now model.old result model.new }
{
    extender::extend(table, values, model)
}

// Writes the table and decodes a model: the unknowns' numerators go to the values; refusals 1 to 13 and 16 to 19.
pub fn decode(
    table: &[u8],
    records: &mut [Record],
    map: &mut [i32],
    slots: &mut [i32],
    model: &[u8],
    values: &mut [i64],
) -> Result<(), Refusal>
    ensures { Decodes table.now records.old map.old slots.old model.now values.old result records.new map.new slots.new values.new }
{
    let tried = decode::decode_core(table, records.len(), map, slots, model, values)?;
    fill(records, tried.sheet.records());
    match tried.false_clause {
        Some(clause) => Err(Reason::FalseClause.at(clause)),
        None => Ok(()),
    }
}

// The lines of a text as the rows of a table, to the end of the text: refusals 18, 20 and 2.
pub fn read_lines(text: &[u8], table: &mut [u8]) -> Result<LinesFound, Refusal>
    ensures { ReadsLines false text.now table.old result table.new }
{
    lines::read_lines(text, table)
}

// The same to an empty line.
pub fn read_lines_until_empty(text: &[u8], table: &mut [u8]) -> Result<LinesFound, Refusal>
    ensures { ReadsLines true text.now table.old result table.new }
{
    lines::read_lines_until_empty(text, table)
}

// Whether a solver's text, about so many variables, claims a model, which it then is read as: refusals 18 and 21.
pub fn read_claim(text: &[u8], variables: u32, model: &mut [u8]) -> Result<bool, Refusal>
    ensures { ReadsClaim text.now variables model.old result model.new }
{
    solver_text::read_claim(text, variables, model)
}

// The walk of a table: the first row that stops decides; else the rows, their records, and what the table counts. One pass over the
// table, `read`, serves checking and measuring, and every call behind them.
#![tactic(auto)]

ghost use Rattle.std.specs.Prelude.{◌≡◌, ◌+◌, ◌-◌, ◌*◌, ◌≤◌, ◌<◌, eqb, min, length, IfOk, MatchResult};
ghost use Rattle.std.specs.List.{All};
ghost use Rattle.sheet.specs.Acceptance as Acceptance;
ghost use Rattle.sheet.specs.Acceptance.{judge, accept};
ghost use Rattle.sheet.specs.Calls.{◌giving◌, checking};
ghost use Rattle.counting.specs.Bounds.{Below};
ghost use Rattle.row.specs.RowAt.{row_at};
ghost use Rattle.judge.specs.Bounds.{InLimits};
ghost use Rattle.table.specs.Bounds.{InBounds};
ghost use Rattle.table.specs.Surveys.{length_tested, no_rows, places_of};

use circuit::Counts;
use sheet::{Fields, MISSING, Passed, Reason, Record, References, Refusal};

pub mod held;

pub use held::Sheet;

// The unit of the last row.
const THE_LAST: Counts = Counts {
    unknowns: 0,
    variables: 0,
    clauses: 1,
    slots: 2,
};

// Where row x stands among the records: at r, where none is written yet, if it is not one of the r rows before.
pub fn place(x: u16, r: usize) -> usize
    ensures { result ≡ min x r }
{
    usize::from(x).min(r)
}

// The same of the rows that a row refers to.
pub fn places(f: Fields, r: usize) -> References<usize>
    ensures { result ≡ places_of r f }
{
    References {
        x: place(f.x, r),
        y: place(f.y, r),
        z: place(f.z, r),
    }
}

// Refusals 1 and 2 of a table of n bytes.
#[tactic(auto, unfolding(crate::specs::Surveys::length_tested))]
fn test_length(n: usize) -> Result<(), Refusal>
    ensures { result ≡ length_tested n }
{
    if n == 0 || n % 8 != 0 {
        return Err(Reason::WrongLength.at(0));
    }
    if 256 < n / 8 {
        return Err(Reason::TooManyRows.at(0));
    }
    Ok(())
}

// The record of row x, or what stands for a row that is not earlier.
fn record_at(earlier: &[Record], x: u16) -> Record
    ensures { result ≡ Acceptance.record_at earlier.now x }
{
    earlier.get(usize::from(x)).copied().unwrap_or(MISSING)
}

// What row r says, and its record and counts behind the rows so far; or why it stops.
#[tactic(auto, unfolding(sheet::specs::Acceptance::judge))]
fn pass(table: &[u8], r: usize, sheet: &Sheet) -> Result<(Fields, Passed), Reason>
    requires inside { 8 * r + 8 ≤ length table.now }
    requires behind { length sheet.now.records ≡ r }
    requires limits { All InLimits sheet.now.records }
    ensures reads { IfOk result (λ p. row_at table.now r ≡ Ok p.0) }
    ensures verdict { let verdict = judge sheet.now.records sheet.now.counts.slots (row_at table.now r) in MatchResult result (λ p. verdict ≡ Ok p.1) (λ reason. verdict ≡ Err reason) }
    ensures bounded { IfOk result (λ p. InLimits p.1.row × Below 170000 p.1.counts) }
{
    let f = row::read_at(table, r)?;
    let earlier = sheet.records();
    let of = References {
        x: record_at(earlier, f.x),
        y: record_at(earlier, f.y),
        z: record_at(earlier, f.z),
    };
    let passed = judge::judge_row(r, sheet.counts().slots, f, of)?;
    Ok((f, passed))
}

// Whether the last of these rows is a number.
fn ends_in_number(records: &[Record]) -> bool
    requires { 0 < length records.now }
    ensures { result ≡ eqb (Acceptance.record_at records.now (length records.now - 1)).sort 1 }
{
    records[records.len() - 1].sort == 1
}

// Reads a table's rows into a sheet that has none: one by one, until one stops; behind the last, which must be Boolean, its unit is
// counted. The sheet is lent, so that none is copied on the way to whoever asks for it.
pub fn read(sheet: &mut Sheet, table: &[u8]) -> Result<(), Refusal>
    requires { sheet.old ≡ no_rows }
    ensures answer { (result giving λ _. sheet.new) ≡ accept table.now }
    ensures bounds { IfOk result (λ _. InBounds sheet.new) }
{
    test_length(table.len())?;
    for r in 0..table.len() / 8 {
        let verdict = pass(table, r, sheet);
        let Ok((f, passed)) = verdict else {
            return Err(verdict.unwrap_err().at(r));
        };
        sheet.push(f, passed);
    }
    if ends_in_number(sheet.records()) {
        return Err(Reason::EndsInNumber.at(sheet.rows().len() - 1));
    }
    sheet.count_more(THE_LAST);
    Ok(())
}

// A table's sheet, or its refusal.
pub fn survey(table: &[u8]) -> Result<Sheet, Refusal>
    ensures answer { result ≡ accept table.now }
    ensures bounds { IfOk result InBounds }
{
    let mut sheet = Sheet::start();
    read(&mut sheet, table)?;
    Ok(sheet)
}

// What a table counts, or its refusal.
pub fn measure(table: &[u8]) -> Result<Counts, Refusal>
    ensures { result ≡ (accept table.now giving λ sheet. sheet.counts) }
{
    let mut sheet = Sheet::start();
    read(&mut sheet, table)?;
    Ok(sheet.counts())
}

// Reads a table whose records are to fit so many lent ones.
#[tactic(auto, unfolding(sheet::specs::Calls::checking))]
pub fn read_checked(sheet: &mut Sheet, table: &[u8], room: usize) -> Result<(), Refusal>
    requires { sheet.old ≡ no_rows }
    ensures answer { (result giving λ _. sheet.new) ≡ checking table.now room }
    ensures bounds { IfOk result (λ _. InBounds sheet.new) }
{
    read(sheet, table)?;
    let rows = sheet.records().len();
    if room < rows {
        return Err(Reason::FewRecords.at(rows));
    }
    Ok(())
}

// The sheet of a table whose records are to fit so many lent ones.
pub fn check_core(table: &[u8], room: usize) -> Result<Sheet, Refusal>
    ensures answer { result ≡ checking table.now room }
    ensures bounds { IfOk result InBounds }
{
    let mut sheet = Sheet::start();
    read_checked(&mut sheet, table, room)?;
    Ok(sheet)
}

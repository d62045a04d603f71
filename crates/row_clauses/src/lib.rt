// The clauses of one row, as a part of the slots that the caller has: only read, never copied.
#![tactic(auto)]

ghost use Rattle.std.specs.Prelude.{◌≡◌, ◌+◌, ◌≤◌, IfOk};
ghost use Rattle.sheet.specs.Calls.{row_clauses};
ghost use Rattle.sheet.specs.Relations.{GivesRow};

use sheet::{Reason, Record, Refusal};
use table::Sheet;

// The record of a row whose slots are to be among so many: refusals 1 to 10, 13 and 22.
pub fn find(table: &[u8], room: usize, row: u32) -> Result<Record, Refusal>
    ensures answer { result ≡ row_clauses table.now room row }
    ensures within { IfOk result (λ r. r.first + r.slots ≤ room) }
{
    let mut sheet = Sheet::start();
    table::read(&mut sheet, table)?;
    let needed = sheet.counts().slots as usize;
    if room < needed {
        return Err(Reason::FewSlots.at(needed));
    }
    let records = sheet.records();
    match records.get(row as usize) {
        Some(own) => Ok(*own),
        None => Err(Reason::NoSuchRow.at(records.len())),
    }
}

// The part of the slots that is the row's, empty at a refusal; the refusal's number and place are in the two lent numbers, both 0 on
// success.
pub fn row_clauses<'a>(
    table: &[u8],
    slots: &'a [i32],
    row: u32,
    number: &mut u32,
    place: &mut usize,
) -> &'a [i32]
    ensures { GivesRow table.now slots.now row result.now number.new place.new }
{
    match find(table, slots.len(), row) {
        Ok(own) => {
            *number = 0;
            *place = 0;
            let first = own.first as usize;
            &slots[first..first + own.slots as usize]
        }
        Err(refusal) => {
            *number = refusal.reason.number();
            *place = refusal.place;
            &slots[..0]
        }
    }
}

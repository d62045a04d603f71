// Writing a table: every refusal is decided before anything is written; then the first unit, the rows and the last unit.
#![tactic(auto)]

ghost use Rattle.std.specs.Prelude.{◌≡◌, [], ◌∷◌, ◌*◌, ◌≤◌, pos, length, IfOk};
ghost use Rattle.sheet.specs.Steps.{map_for, slots_for};
ghost use Rattle.sheet.specs.Calls.{◌giving◌, writing, left, sheet_map, sheet_slots};
ghost use Rattle.frame.specs.Frame.{front};
ghost use Rattle.table.specs.Accepted.{Accepted};
ghost use Rattle.table.specs.Bounds.{InBounds};
ghost use Rattle.table.specs.Surveys.{no_rows};

use sheet::{Reason, Refusal};
use table::Sheet;

// Reads a table whose records, literal map and slots are to fit what is lent: refusals 1 to 13.
#[tactic(auto, unfolding(sheet::specs::Calls::writing))]
pub fn read_fitting(
    sheet: &mut Sheet,
    table: &[u8],
    records: usize,
    map: usize,
    slots: usize,
) -> Result<(), Refusal>
    requires { sheet.old ≡ no_rows }
    ensures answer { (result giving λ _. sheet.new) ≡ writing table.now records map slots }
    ensures bounds { IfOk result (λ _. InBounds sheet.new) }
{
    table::read_checked(sheet, table, records)?;
    let places = literal_map::places(sheet.records().len());
    if map < places {
        return Err(Reason::ShortMap.at(places));
    }
    let needed = sheet.counts().slots as usize;
    if slots < needed {
        return Err(Reason::FewSlots.at(needed));
    }
    Ok(())
}

// The sheet of a table whose records, literal map and slots are to fit what is lent.
pub fn fitting(table: &[u8], records: usize, map: usize, slots: usize) -> Result<Sheet, Refusal>
    ensures answer { result ≡ writing table.now records map slots }
    ensures bounds { IfOk result InBounds }
{
    let mut sheet = Sheet::start();
    read_fitting(&mut sheet, table, records, map, slots)?;
    Ok(sheet)
}

// A clause of one literal, over the front of the slots that remain.
fn put_unit(out: &mut [i32], x: i32)
    requires { 2 ≤ length out.old }
    ensures { out.new ≡ front (x ∷ pos 0 ∷ []) out.old }
{
    out[0] = x;
    out[1] = 0;
}

// An accepted table that has room: the slots of the whole table, and its literal map.
pub fn write_table(sheet: &Sheet, map: &mut [i32], slots: &mut [i32])
    requires accepted { Accepted sheet.now }
    requires map_room { 48 * length sheet.now.rows ≤ length map.old }
    requires slot_room { sheet.now.counts.slots ≤ length slots.old }
    ensures slots { slots.new ≡ front (slots_for sheet.now.rows) slots.old }
    ensures map { map.new ≡ front (map_for sheet.now.rows) map.old }
{
    put_unit(slots, 1);
    let at = writer::write_rows(sheet, map, slots);
    let last = literal_map::first(map, sheet.rows().len() - 1);
    put_unit(&mut slots[at..], last);
}

// Writes a table's slots and literal map, or refuses and leaves both as they were. The records are in the answer; as many are to
// be lent as there are rows.
pub fn write_core(
    table: &[u8],
    records: usize,
    map: &mut [i32],
    slots: &mut [i32],
) -> Result<Sheet, Refusal>
    ensures answer { result ≡ writing table.now records (length map.old) (length slots.old) }
    ensures bounds { IfOk result InBounds }
    ensures map { map.new ≡ left (writing table.now records (length map.old) (length slots.old)) sheet_map map.old }
    ensures slots { slots.new ≡ left (writing table.now records (length map.old) (length slots.old)) sheet_slots slots.old }
{
    let mut sheet = Sheet::start();
    read_fitting(&mut sheet, table, records, map.len(), slots.len())?;
    write_table(&sheet, map, slots);
    Ok(sheet)
}

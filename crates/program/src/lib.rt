// What both programs make of their input: how much of it counts, and the clauses of the table in its lines.
#![tactic(auto)]

ghost use Rattle.std.specs.Prelude.{◌≡◌, ◌≤◌, length, IfOk};
ghost use Rattle.sheet.specs.Programs.{input_of};
ghost use Rattle.sheet.specs.Calls.{left, sheet_map, sheet_slots};
ghost use Rattle.table.specs.Bounds.{InBounds};
ghost use Rattle.program.specs.Sheets.{sheet_of};

use sheet::Refusal;
use table::Sheet;

// The part of the input that counts: the first 65,536 bytes.
#[tactic(auto, using(crate::proofs::Cut::cut_short))]
pub fn used(input: &[u8]) -> &[u8]
    ensures { result.now ≡ input_of input.now }
{
    &input[..input.len().min(65536)]
}

// Writes a table's slots and literal map, or refuses it and leaves both as they were. Any table that is accepted has room for its
// records and its map here, so that of refusals 11 to 13 only 13 is met.
pub fn write_sheet(table: &[u8], map: &mut [i32], slots: &mut [i32]) -> Result<Sheet, Refusal>
    requires map_room { 12288 ≤ length map.old }
    requires slots_length { length slots.old ≡ 16384 }
    ensures answer { result ≡ sheet_of table.now }
    ensures bounds { IfOk result InBounds }
    ensures map { map.new ≡ left (sheet_of table.now) sheet_map map.old }
    ensures slots { slots.new ≡ left (sheet_of table.now) sheet_slots slots.old }
{
    write::write_core(table, 256, map, slots)
}

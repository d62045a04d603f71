// Rows to clauses: one row after the other, its slots behind those before it, its literals into the map.
#![tactic(auto)]

ghost use Rattle.std.specs.Prelude.{◌≡◌, ◌+◌, ◌*◌, ◌≤◌, length};
ghost use Rattle.sheet.specs.Steps.{map_for};
ghost use Rattle.frame.specs.Frame.{front, over};
ghost use Rattle.table.specs.Accepted.{Accepted};
ghost use Rattle.writer.specs.Rows.{row_slots};

use frame::Cursor;
use sheet::References;
use table::Sheet;

// The rows of an accepted table; answers where their slots end.
pub fn write_rows(sheet: &Sheet, map: &mut [i32], slots: &mut [i32]) -> usize
    requires accepted { Accepted sheet.now }
    requires map_room { 48 * length sheet.now.rows ≤ length map.old }
    requires slot_room { sheet.now.counts.slots ≤ length slots.old }
    ensures slots { slots.new ≡ over 2 (row_slots sheet.now.rows) slots.old }
    ensures end { result ≡ 2 + length (row_slots sheet.now.rows) }
    ensures map { map.new ≡ front (map_for sheet.now.rows) map.old }
{
    let records = sheet.records();
    let mut to = Cursor { at: 2, next: 1 };
    for (r, f) in sheet.rows().iter().enumerate() {
        let at = table::places(*f, r);
        let of = References {
            x: records[at.x],
            y: records[at.y],
            z: records[at.z],
        };
        let of = literal_map::refer_all(map, r, *f, of);
        let made = row_writer::write_row(slots, to, *f, &of);
        literal_map::store(map, r, &made.value);
        to = made.to;
    }
    to.at
}

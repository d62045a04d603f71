// Decoding: a model of a table's clauses back to the settings of its unknowns. Refusals 1 to 13 and 16 to 18 are decided before
// anything is written, 19 over the slots that were written, and only then are the settings written.
#![tactic(auto)]

ghost use Rattle.std.specs.Prelude.{◌≡◌, ◌≤◌, length, IfOk};
ghost use Rattle.sheet.specs.Calls as Calls;
ghost use Rattle.sheet.specs.Calls.{◌giving◌, decoding, left, sheet_map, sheet_slots, settings_of, unknown_count};
ghost use Rattle.frame.specs.Frame.{front};
ghost use Rattle.table.specs.Bounds.{InBounds};
ghost use Rattle.table.specs.Surveys.{no_rows};
ghost use Rattle.decode.specs.Tried.{sheet_tried, outcome_of};
ghost use Rattle.decode.specs.Written.{Written};

use sheet::{Reason, Refusal};
use table::Sheet;

// An accepted table on whose clauses a model was tried: the first one that it makes false, from 1, if there is one.
#[derive(Clone, Copy)]
pub struct Tried {
    pub sheet: Sheet,
    pub false_clause: Option<usize>,
}

// Reads a table that a model is to be decoded for: refusals 1 to 13 and 16 to 18.
#[tactic(auto, unfolding(sheet::specs::Calls::decodable))]
fn read_decodable(
    sheet: &mut Sheet,
    table: &[u8],
    records: usize,
    map: usize,
    slots: usize,
    model: &[u8],
    values: usize,
) -> Result<(), Refusal>
    requires { sheet.old ≡ no_rows }
    ensures answer { (result giving λ _. sheet.new) ≡ Calls.decodable table.now records map slots model.now values }
    ensures bounds { IfOk result (λ _. InBounds sheet.new) }
{
    write::read_fitting(sheet, table, records, map, slots)?;
    let counts = sheet.counts();
    let variables = counts.variables as usize;
    if model.len() != variables {
        return Err(Reason::ModelLength.at(variables));
    }
    if let Some(i) = assign::first_not_bit(model) {
        return Err(Reason::NotABit.at(i));
    }
    let unknowns = counts.unknowns as usize;
    if values < unknowns {
        return Err(Reason::ShortBuffer.at(unknowns));
    }
    Ok(())
}

// The sheet of a table that a model is to be decoded for.
pub fn decodable(
    table: &[u8],
    records: usize,
    map: usize,
    slots: usize,
    model: &[u8],
    values: usize,
) -> Result<Sheet, Refusal>
    ensures answer { result ≡ Calls.decodable table.now records map slots model.now values }
    ensures bounds { IfOk result InBounds }
{
    let mut sheet = Sheet::start();
    read_decodable(&mut sheet, table, records, map, slots, model, values)?;
    Ok(sheet)
}

// The settings of the unknowns of an accepted table, in row order, each from its page of the literal map.
fn put_settings(sheet: &Sheet, map: &[i32], model: &[u8], values: &mut [i64])
    requires written { Written sheet.now map.now model.now }
    requires room { unknown_count sheet.now ≤ length values.old }
    ensures { values.new ≡ front (settings_of model.now sheet.now) values.old }
{
    let records = sheet.records();
    let mut n = 0;
    for (r, f) in sheet.rows().iter().enumerate() {
        if unknown::is_unknown(f.kind) {
            values[n] = bits::setting(records[r], &map[literal_map::places(r)..], model);
            n += 1;
        }
    }
}

// Decodes a model, or refuses. Where a clause is false the map and the slots are as writing leaves them; at a refusal nothing is changed.
// The records are in the answer; as many are to be lent as there are rows.
pub fn decode_core(
    table: &[u8],
    records: usize,
    map: &mut [i32],
    slots: &mut [i32],
    model: &[u8],
    values: &mut [i64],
) -> Result<Tried, Refusal>
    ensures sheet { sheet_tried result ≡ Calls.decodable table.now records (length map.old) (length slots.old) model.now (length values.old) }
    ensures answer { outcome_of result ≡ decoding table.now records (length map.old) (length slots.old) model.now (length values.old) }
    ensures bounds { IfOk result (λ tried. InBounds tried.sheet) }
    ensures map { map.new ≡ left (Calls.decodable table.now records (length map.old) (length slots.old) model.now (length values.old)) sheet_map map.old }
    ensures slots { slots.new ≡ left (Calls.decodable table.now records (length map.old) (length slots.old) model.now (length values.old)) sheet_slots slots.old }
    ensures values { values.new ≡ left (decoding table.now records (length map.old) (length slots.old) model.now (length values.old)) (settings_of model.now) values.old }
{
    let mut sheet = Sheet::start();
    read_decodable(
        &mut sheet,
        table,
        records,
        map.len(),
        slots.len(),
        model,
        values.len(),
    )?;
    write::write_table(&sheet, map, slots);
    let written = sheet.counts().slots as usize;
    let false_clause = assign::first_false(&slots[..written], model);
    if false_clause.is_none() {
        put_settings(&sheet, map, model, values);
    }
    Ok(Tried {
        sheet,
        false_clause,
    })
}

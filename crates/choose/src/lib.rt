// Values for the unknowns of a table: refusals 14 and 15, behind those of the table itself.
#![tactic(auto)]

ghost use Rattle.std.specs.Prelude.{◌≡◌, not, position, IfOk};
ghost use Rattle.std.specs.List.{All};
ghost use Rattle.sheet.specs.Rows.{uses};
ghost use Rattle.sheet.specs.Values.{unknowns, each_in_bits};
ghost use Rattle.sheet.specs.Calls.{◌giving◌, choosing};
ghost use Rattle.table.specs.Bounds.{InBounds};
ghost use Rattle.table.specs.Surveys.{no_rows};
ghost use Rattle.declared.specs.Declared.{Declared};

use sheet::{Fields, Reason, Refusal};
use table::Sheet;

// The first value outside its declared bits, if there is one: each unknown takes the next value.
fn first_outside(rows: &[Fields], values: &[i64]) -> Option<usize>
    requires { All (λ f. Declared (uses f.kind) f.p) rows.now }
    ensures { result ≡ position not (each_in_bits (unknowns rows.now) values.now) }
{
    rows.iter()
        .filter(|f| unknown::is_unknown(f.kind))
        .zip(values)
        .position(|(f, v)| !declared::in_bits(f.kind, f.p, *v))
}

// Reads a table for whose unknowns these values are chosen: as many as there are unknowns, each within its declared bits.
#[tactic(auto, using(crate::proofs::Choosing::choices), unfolding(sheet::specs::Calls::choosing))]
pub fn read_chosen(sheet: &mut Sheet, table: &[u8], values: &[i64]) -> Result<(), Refusal>
    requires { sheet.old ≡ no_rows }
    ensures answer { (result giving λ _. sheet.new) ≡ choosing table.now values.now }
    ensures bounds { IfOk result (λ _. InBounds sheet.new) }
{
    table::read(sheet, table)?;
    let unknowns = sheet.counts().unknowns as usize;
    if values.len() != unknowns {
        return Err(Reason::ValueCount.at(unknowns));
    }
    if let Some(i) = first_outside(sheet.rows(), values) {
        return Err(Reason::ValueOutside.at(i));
    }
    Ok(())
}

// The sheet of a table for whose unknowns these values are chosen.
pub fn choose(table: &[u8], values: &[i64]) -> Result<Sheet, Refusal>
    ensures answer { result ≡ choosing table.now values.now }
    ensures bounds { IfOk result InBounds }
{
    let mut sheet = Sheet::start();
    read_chosen(&mut sheet, table, values)?;
    Ok(sheet)
}

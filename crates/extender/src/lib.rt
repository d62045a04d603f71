// The rows of an accepted sheet extended: one row after the other, its bits behind those before it.
#![tactic(auto)]

ghost use Rattle.std.specs.Prelude.{◌≡◌, map, ◌≤◌, pos, length, get_or, take};
ghost use Rattle.sheet.specs.Values.{numerator, row_values, Chosen};
ghost use Rattle.sheet.specs.Acceptance.{record_at};
ghost use Rattle.sheet.specs.Relations.{Extends};
ghost use Rattle.table.specs.Accepted.{Accepted};
ghost use Rattle.trace.specs.Traces.{traces};
ghost use Rattle.extend.specs.Bytes.{Room, Put};

use extend::PartialModel;
use number_extender::Operand;
use sheet::{MISSING, Reason, Record, References, Refusal};
use table::Sheet;

// Row x as one behind r others may refer to it, of the rows before it alone: a row that is not earlier is false.
#[tactic(auto, using(crate::proofs::Referring::refers))]
fn refer(records: &[Record], results: &[i64], r: usize, x: u16) -> Operand
    requires records { r ≤ length records.now }
    requires results { length records.now ≤ length results.now }
    ensures record { result.record ≡ record_at (take r records.now) x }
    ensures numerator { result.numerator ≡ get_or (take r results.now) x (pos 0) }
{
    let x = usize::from(x);
    if x < r {
        return Operand {
            record: records[x],
            numerator: results[x],
        };
    }
    Operand {
        record: MISSING,
        numerator: 0,
    }
}

// Truth, then the rows of an accepted sheet at chosen values, where `results` begin with the rows' numerators.
#[tactic(auto, using(crate::proofs::Walking::enough))]
pub fn extend_rows(model: &mut PartialModel, sheet: &Sheet, results: &[i64], values: &[i64])
    requires accepted { Accepted sheet.now }
    requires chosen { Chosen sheet.now.rows values.now }
    requires computed { take (length sheet.now.rows) results.now ≡ map numerator (row_values sheet.now.rows values.now) }
    requires room { Room (traces sheet.now.records sheet.now.rows values.now) model.old }
    ensures { Put (traces sheet.now.records sheet.now.rows values.now) model.old model.new }
{
    let records = sheet.records();
    model.put(true);
    let mut u: usize = 0;
    for (r, f) in sheet.rows().iter().enumerate() {
        let of = References {
            x: refer(records, results, r, f.x),
            y: refer(records, results, r, f.y),
            z: refer(records, results, r, f.z),
        };
        row_extender::extend_row(model, *f, of, unknown::value_at(values, u));
        if unknown::is_unknown(f.kind) {
            u += 1;
        }
    }
}

// One byte a variable: the assignment that carries the values; and whether the constraint is true of them.
#[tactic(auto, using(crate::proofs::Extending::extends))]
pub fn extend(table: &[u8], values: &[i64], model: &mut [u8]) -> Result<bool, Refusal>
    ensures { Extends table.now values.now model.old result model.new }
{
    let mut sheet = Sheet::start();
    choose::read_chosen(&mut sheet, table, values)?;
    let variables = sheet.counts().variables as usize;
    if model.len() < variables {
        return Err(Reason::ShortBuffer.at(variables));
    }
    let rows = sheet.rows().len();
    let mut results = [0; 256];
    evaluate::fill(&sheet, values, &mut results);
    let mut model = PartialModel {
        bytes: model,
        at: 0,
    };
    extend_rows(&mut model, &sheet, &results, values);
    Ok(results[rows - 1] == 1)
}

// Evaluating: every row's numerator at chosen values, and refusal 18.
#![tactic(auto)]

ghost use Rattle.std.specs.Prelude.{◌≡◌, ◌≤◌, map, length};
ghost use Rattle.sheet.specs.Values.{numerator, row_values, Chosen};
ghost use Rattle.sheet.specs.Calls.{evaluating, left, results_of, done};
ghost use Rattle.frame.specs.Frame.{front};
ghost use Rattle.table.specs.Accepted.{Accepted};

use row_value::Operand;
use sheet::{Reason, References, Refusal};
use table::Sheet;

// The numerators of the rows of an accepted table, row by row; an unknown takes the next of the values.
pub fn fill(sheet: &Sheet, values: &[i64], results: &mut [i64])
    requires accepted { Accepted sheet.now }
    requires chosen { Chosen sheet.now.rows values.now }
    requires room { length sheet.now.rows ≤ length results.old }
    ensures { results.new ≡ front (map numerator (row_values sheet.now.rows values.now)) results.old }
{
    let records = sheet.records();
    let mut i = 0;
    for (r, f) in sheet.rows().iter().enumerate() {
        let at = table::places(*f, r);
        let of = References {
            x: Operand {
                numerator: results[at.x],
                denominator: records[at.x].denominator,
            },
            y: Operand {
                numerator: results[at.y],
                denominator: records[at.y].denominator,
            },
            z: Operand {
                numerator: results[at.z],
                denominator: records[at.z].denominator,
            },
        };
        results[r] = row_value::numerator_of_row(*f, of, unknown::value_at(values, i));
        if unknown::is_unknown(f.kind) {
            i += 1;
        }
    }
}

// The numerator of every row, Booleans 0 or 1, at values chosen for the unknowns in row order.
#[tactic(auto, using(crate::proofs::Evaluating::chosen), unfolding(sheet::specs::Calls::evaluating, sheet::specs::Calls::left, frame::specs::Frame::front))]
pub fn evaluate(table: &[u8], values: &[i64], results: &mut [i64]) -> Result<(), Refusal>
    ensures answer { result ≡ done (evaluating table.now values.now (length results.old)) }
    ensures results { results.new ≡ left (evaluating table.now values.now (length results.old)) (results_of values.now) results.old }
{
    let mut sheet = Sheet::start();
    choose::read_chosen(&mut sheet, table, values)?;
    let rows = sheet.rows().len();
    if results.len() < rows {
        return Err(Reason::ShortBuffer.at(rows));
    }
    fill(&sheet, values, results);
    Ok(())
}

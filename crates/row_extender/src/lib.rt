// One row extended by its kind: what its gates hold is put into a model, from the exact values of the rows that it refers to.
#![tactic(auto)]

ghost use Rattle.extend.specs.Bytes.{Room, Put};
ghost use Rattle.row_extender.specs.Ready.{trace_over, Ready};

use extend::PartialModel;
use number_extender::Operand;
use sheet::{Fields, Kind, References};

// The row f, where `of` are the rows x, y and z as far as it refers to them, and v is the value chosen for an unknown.
#[tactic(auto, using(extend::proofs::Putting::put_none), unfolding(crate::specs::Ready::trace_over))]
pub fn extend_row(model: &mut PartialModel, f: Fields, of: References<Operand>, v: i64)
    requires ready { Ready f.kind of }
    requires room { Room (trace_over f of v) model.old }
    ensures { Put (trace_over f of v) model.old model.new }
{
    let (a, b, c) = (of.x, of.y, of.z);
    match f.kind {
        Kind::BooleanConstant | Kind::NumberConstant | Kind::Not => {}
        Kind::BooleanUnknown => model.put(v == 1),
        Kind::NaturalUnknown | Kind::IntegerUnknown => model.put_bits(u32::from(f.p), v),
        Kind::And => model.put(a.is_true() && b.is_true()),
        // The gate of a disjunction holds where neither is true.
        Kind::Or => model.put(!a.is_true() && !b.is_true()),
        // The gates of an implication and of an equivalence hold where these are false.
        Kind::Implies => model.put(a.is_true() && !b.is_true()),
        Kind::Iff => model.put(a.is_true() != b.is_true()),
        Kind::Sum => number_extender::sum(model, a, b),
        Kind::Difference => number_extender::difference(model, a, b),
        Kind::Product => number_extender::product(model, a, b),
        Kind::Choice => number_extender::choice(model, a, b, c),
        Kind::Greater => number_extender::greater(model, a, b),
        Kind::Equal => number_extender::equal(model, a, b),
    }
}

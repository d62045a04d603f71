// A row's circuit, written by its kind.
#![tactic(auto)]

ghost use Rattle.frame.specs.Written.{RoomFor};
ghost use Rattle.literal_map.specs.Rows.{RowMade};
ghost use Rattle.row_writer.specs.Ready.{Ready, steps_over};

use frame::{Cursor, Made, Number};
use literal_map::Operand;
use sheet::{Fields, Kind, References};

// The row f, where `of` are the rows x, y and z as far as it refers to them.
pub fn write_row(
    slots: &mut [i32],
    from: Cursor,
    f: Fields,
    of: &References<Operand>,
) -> Made<Number>
    requires ready { Ready f of.now }
    requires room { RoomFor from (steps_over f of.now) slots.old }
    ensures { RowMade from (steps_over f of.now) slots.old slots.new result }
{
    let (a, b, c) = (&of.x, &of.y, &of.z);
    match f.kind {
        Kind::BooleanConstant => boolean_row::flag(from, f.x),
        Kind::BooleanUnknown => boolean_row::unknown(from),
        Kind::NaturalUnknown => leaf_row::natural(from, f.p),
        Kind::IntegerUnknown => leaf_row::integer(from, f.p),
        Kind::NumberConstant => leaf_row::constant(from, f.x, f.y),
        Kind::Not => boolean_row::negation(from, a),
        Kind::And => boolean_row::and(slots, from, a, b),
        Kind::Or => boolean_row::or(slots, from, a, b),
        Kind::Implies => boolean_row::implies(slots, from, a, b),
        Kind::Iff => boolean_row::iff(slots, from, a, b),
        Kind::Sum => number_row::sum(slots, from, a, b),
        Kind::Difference => number_row::difference(slots, from, a, b),
        Kind::Product => number_row::product(slots, from, a, b),
        Kind::Choice => number_row::choice(slots, from, a, b, c),
        Kind::Greater => number_row::greater(slots, from, a, b),
        Kind::Equal => number_row::equal(slots, from, a, b),
    }
}

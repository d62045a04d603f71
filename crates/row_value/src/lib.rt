// The numerator of one row at chosen values, from the values of the rows that it refers to. A Boolean is 0 or 1.
#![tactic(auto)]

ghost use Rattle.std.specs.Prelude.{◌≡◌};
ghost use Rattle.whole.specs.Bits.{Fits};
ghost use Rattle.sheet.specs.Values.{numerator};
ghost use Rattle.row_value.specs.Operands.{is_true, row_over, common, brought, Meeting, Ready};

use sheet::{Fields, Kind, References};

// A row that another refers to: its numerator, 0 or 1 for a Boolean, and its denominator.
#[derive(Clone, Copy)]
pub struct Operand {
    pub numerator: i64,
    pub denominator: u32,
}

impl Operand {
    fn is_true(self) -> bool
        ensures { result ≡ is_true self }
    {
        self.numerator == 1
    }
}

// Two numbers brought to the least common multiple of their denominators.
fn bring(a: Operand, b: Operand) -> (i64, i64)
    requires { Meeting a b }
    ensures left { result.0 ≡ brought (common a b) a }
    ensures right { result.1 ≡ brought (common a b) b }
    ensures left_fits { Fits 48 result.0 }
    ensures right_fits { Fits 48 result.1 }
{
    let d = numbers::lcm(a.denominator, b.denominator);
    let left = a.numerator * i64::from(d / a.denominator);
    let right = b.numerator * i64::from(d / b.denominator);
    (left, right)
}

// The numerator of a row, where `of` are the rows x, y and z as far as it refers to them, and v is the value chosen for an unknown.
#[tactic(auto, unfolding(crate::specs::Operands::row_over))]
pub fn numerator_of_row(row: Fields, of: References<Operand>, v: i64) -> i64
    requires { Ready row.kind of }
    ensures { result ≡ numerator (row_over of row v) }
{
    let (a, b, c) = (of.x, of.y, of.z);
    match row.kind {
        Kind::BooleanConstant => i64::from(row.x == 1),
        Kind::BooleanUnknown => i64::from(v == 1),
        Kind::NaturalUnknown | Kind::IntegerUnknown => v,
        Kind::NumberConstant => numbers::constant(row.x, row.y),
        Kind::Not => i64::from(!a.is_true()),
        Kind::And => i64::from(a.is_true() && b.is_true()),
        Kind::Or => i64::from(a.is_true() || b.is_true()),
        Kind::Implies => i64::from(!a.is_true() || b.is_true()),
        Kind::Iff => i64::from(a.is_true() == b.is_true()),
        Kind::Product => a.numerator * b.numerator,
        Kind::Sum => {
            let (left, right) = bring(a, b);
            left + right
        }
        Kind::Difference => {
            let (left, right) = bring(a, b);
            left - right
        }
        Kind::Choice => {
            let (left, right) = bring(b, c);
            if a.is_true() { left } else { right }
        }
        Kind::Greater => {
            let (left, right) = bring(a, b);
            i64::from(left > right)
        }
        Kind::Equal => {
            let (left, right) = bring(a, b);
            i64::from(left == right)
        }
    }
}

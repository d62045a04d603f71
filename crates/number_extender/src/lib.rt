// Rows over numbers, extended: both are brought to one denominator, x before y before z, then the operation's bits are put.
#![tactic(auto)]

ghost use Rattle.std.specs.Prelude.{◌≡◌};
ghost use Rattle.extend.specs.Bytes.{Room, Put};
ghost use Rattle.number_extender.specs.Operands.{is_true, both_brought, common_width, left, right, IsNumber, Meeting};
ghost use Rattle.number_extender.specs.Operations.{of_sum, of_difference, of_product, of_choice, of_greater, of_equal};

use extend::PartialModel;
use sheet::Record;

// A row that another refers to: its record and its numerator, 0 or 1 for a Boolean.
#[derive(Clone, Copy)]
pub struct Operand {
    pub record: Record,
    pub numerator: i64,
}

impl Operand {
    pub fn is_true(self) -> bool
        ensures { result ≡ is_true self }
    {
        self.numerator == 1
    }
}

// Two numbers over one denominator, and the width that holds both.
#[derive(Clone, Copy)]
struct Pair {
    x: i64,
    y: i64,
    width: u32,
}

// Both numbers over the least common multiple of their denominators, a before b.
fn bring(model: &mut PartialModel, a: Operand, b: Operand) -> Pair
    requires meeting_a_b { Meeting a b }
    requires room { Room (both_brought a b) model.old }
    ensures bits { Put (both_brought a b) model.old model.new }
    ensures left { result.x ≡ left a b }
    ensures right { result.y ≡ right a b }
    ensures width { result.width ≡ common_width a b }
{
    let common = numbers::lcm(a.record.denominator, b.record.denominator);
    let p = model.expand(a.record.width, common / a.record.denominator, a.numerator);
    let q = model.expand(b.record.width, common / b.record.denominator, b.numerator);
    Pair {
        x: p.numerator,
        y: q.numerator,
        width: p.width.max(q.width),
    }
}

pub fn sum(model: &mut PartialModel, a: Operand, b: Operand)
    requires meeting_a_b { Meeting a b }
    requires room { Room (of_sum a b) model.old }
    ensures { Put (of_sum a b) model.old model.new }
{
    let p = bring(model, a, b);
    model.add(p.width + 1, p.x, p.y, false);
}

// The bits of -1 - y are those of y turned.
pub fn difference(model: &mut PartialModel, a: Operand, b: Operand)
    requires meeting_a_b { Meeting a b }
    requires room { Room (of_difference a b) model.old }
    ensures { Put (of_difference a b) model.old model.new }
{
    let p = bring(model, a, b);
    model.add(p.width + 1, p.x, -1 - p.y, true);
}

// A product is over the product of the denominators, so nothing is brought.
pub fn product(model: &mut PartialModel, a: Operand, b: Operand)
    requires is_number_a { IsNumber a }
    requires is_number_b { IsNumber b }
    requires room { Room (of_product a b) model.old }
    ensures { Put (of_product a b) model.old model.new }
{
    model.multiply(a.record.width + b.record.width, a.numerator, b.numerator);
}

// The number b if a holds, else c.
pub fn choice(model: &mut PartialModel, a: Operand, b: Operand, c: Operand)
    requires meeting_b_c { Meeting b c }
    requires room { Room (of_choice a b c) model.old }
    ensures { Put (of_choice a b c) model.old model.new }
{
    let p = bring(model, b, c);
    if a.is_true() {
        model.put_bits(p.width, p.x);
    } else {
        model.put_bits(p.width, p.y);
    }
}

pub fn greater(model: &mut PartialModel, a: Operand, b: Operand)
    requires meeting_a_b { Meeting a b }
    requires room { Room (of_greater a b) model.old }
    ensures { Put (of_greater a b) model.old model.new }
{
    let p = bring(model, a, b);
    model.greater(p.width, p.x, p.y);
}

pub fn equal(model: &mut PartialModel, a: Operand, b: Operand)
    requires meeting_a_b { Meeting a b }
    requires room { Room (of_equal a b) model.old }
    ensures { Put (of_equal a b) model.old model.new }
{
    let p = bring(model, a, b);
    model.equal(p.width, p.x, p.y);
}

// The operations on two numbers of any widths, written into lent slots: both are brought to one width, then their circuit is written.
#![tactic(auto)]

ghost use Rattle.std.specs.Prelude.{◌≡◌, max, ◌+◌, ◌≤◌, ◌<◌, length};
ghost use Rattle.whole.specs.Bits.{extended};
ghost use Rattle.circuit.specs.Numbers.{larger, sum, difference, product, expansion, greater, equal, choice};
ghost use Rattle.circuit.specs.Counting.{expanded_width};
ghost use Rattle.frame.specs.Written.{RoomFor, Makes};

use frame::{Cursor, Lit, Made, Number};

// Two numbers at one width.
fn widen(x: &Number, y: &Number, width: usize) -> (Number, Number)
    requires { width ≤ 48 }
    ensures x { result.0 ≡ extended width x.now }
    ensures y { result.1 ≡ extended width y.now }
{
    (literals::widen(x, width), literals::widen(y, width))
}

// The larger of two widths.
fn larger(x: &Number, y: &Number) -> usize
    ensures value { result ≡ larger x.now y.now }
    ensures few { result ≤ 48 }
{
    x.width().max(y.width())
}

// x + y, one bit wider than the wider. A sum starts with carry false.
pub fn sum(slots: &mut [i32], from: Cursor, x: &Number, y: &Number) -> Made<Number>
    requires fits { max (length x.now) (length y.now) < 48 }
    requires room { RoomFor from (sum x.now y.now) slots.old }
    ensures { Makes from (sum x.now y.now) slots.old slots.new result }
{
    let (a, b) = widen(x, y, larger(x, y) + 1);
    adder::add(slots, from, a.literals(), b.literals(), Lit::FALSITY)
}

// x - y, one bit wider than the wider. A difference adds y's negated literals with carry truth.
pub fn difference(slots: &mut [i32], from: Cursor, x: &Number, y: &Number) -> Made<Number>
    requires fits { max (length x.now) (length y.now) < 48 }
    requires room { RoomFor from (difference x.now y.now) slots.old }
    ensures { Makes from (difference x.now y.now) slots.old slots.new result }
{
    let (a, b) = widen(x, y, larger(x, y) + 1);
    let negated = literals::negate_all(&b);
    adder::add(slots, from, a.literals(), negated.literals(), Lit::TRUTH)
}

// x times y, as wide as both together.
pub fn product(slots: &mut [i32], from: Cursor, x: &Number, y: &Number) -> Made<Number>
    requires fits { length x.now + length y.now ≤ 48 }
    requires room { RoomFor from (product x.now y.now) slots.old }
    ensures { Makes from (product x.now y.now) slots.old slots.new result }
{
    let (a, b) = widen(x, y, x.width() + y.width());
    product::multiply(slots, from, a.literals(), b.literals())
}

// A number whose factor isn't 1 is multiplied by it as by a constant. Only this function knows how a number is expanded.
pub fn expansion(slots: &mut [i32], from: Cursor, factor: u32, x: &Number) -> Made<Number>
    requires factor { factor < 2147483648 }
    requires fits { expanded_width (length x.now) factor ≤ 48 }
    requires room { RoomFor from (expansion factor x.now) slots.old }
    ensures { Makes from (expansion factor x.now) slots.old slots.new result }
{
    if factor == 1 {
        return Made {
            value: *x,
            to: from,
        };
    }
    let y = literals::constant(i64::from(factor));
    product(slots, from, x, &y)
}

// Whether x is above y.
pub fn greater(slots: &mut [i32], from: Cursor, x: &Number, y: &Number) -> Made<Lit>
    requires { RoomFor from (greater x.now y.now) slots.old }
    ensures { Makes from (greater x.now y.now) slots.old slots.new result }
{
    let (a, b) = widen(x, y, larger(x, y));
    compare::greater(slots, from, a.literals(), b.literals())
}

// Whether x and y are equal.
pub fn equal(slots: &mut [i32], from: Cursor, x: &Number, y: &Number) -> Made<Lit>
    requires { RoomFor from (equal x.now y.now) slots.old }
    ensures { Makes from (equal x.now y.now) slots.old slots.new result }
{
    let (a, b) = widen(x, y, larger(x, y));
    compare::equal(slots, from, a.literals(), b.literals())
}

// x if the condition holds, else y; as wide as the wider.
pub fn choice(
    slots: &mut [i32],
    from: Cursor,
    condition: Lit,
    x: &Number,
    y: &Number,
) -> Made<Number>
    requires { RoomFor from (choice condition x.now y.now) slots.old }
    ensures { Makes from (choice condition x.now y.now) slots.old slots.new result }
{
    let (a, b) = widen(x, y, larger(x, y));
    choice::choose(slots, from, condition, a.literals(), b.literals())
}

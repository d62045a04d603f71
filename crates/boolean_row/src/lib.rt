// Boolean rows: a constant, an unknown, and the connectives. Each has one literal.
#![tactic(auto)]

ghost use Rattle.std.specs.Prelude.{◌≡◌, [], ◌∷◌, ◌<◌, eqb};
ghost use Rattle.circuit.specs.Literals.{neg, known};
ghost use Rattle.circuit.specs.Gates.{free, and, xor};
ghost use Rattle.circuit.specs.Circuits.{ret, make};
ghost use Rattle.sheet.specs.Steps.{boolean_cell, negated, lit};
ghost use Rattle.frame.specs.Written.{RoomFor};
ghost use Rattle.literal_map.specs.Cells.{cell_of};
ghost use Rattle.literal_map.specs.Rows.{RowMade, RowKnown};

use frame::{Cursor, Lit, Made, Number};
use literal_map::Operand;

// A literal as a row's number.
pub fn single(made: Made<Lit>) -> Made<Number>
    ensures value { result.value ≡ made.value ∷ [] }
    ensures to { result.to ≡ made.to }
{
    let mut value = Number::empty();
    value.push(made.value);
    Made { value, to: made.to }
}

// The literal of a Boolean row.
pub fn literal(a: &Operand) -> Lit
    ensures { result ≡ lit (cell_of a.now) }
{
    a.number.literals().first().copied().unwrap_or(Lit::FALSITY)
}

// The negation of what was made.
fn not(made: Made<Lit>) -> Made<Lit>
    ensures value { result.value ≡ neg made.value }
    ensures to { result.to ≡ made.to }
{
    Made {
        value: -made.value,
        to: made.to,
    }
}

pub fn flag(from: Cursor, x: u16) -> Made<Number>
    ensures { RowKnown from (boolean_cell (ret (known (eqb x 1)))) result }
{
    single(Made {
        value: Lit::known(x == 1),
        to: from,
    })
}

pub fn unknown(from: Cursor) -> Made<Number>
    requires { from.next < 2147483647 }
    ensures { RowKnown from (boolean_cell (make free)) result }
{
    single(Made {
        value: Lit::fresh(from.next),
        to: Cursor {
            at: from.at,
            next: from.next + 1,
        },
    })
}

pub fn negation(from: Cursor, a: &Operand) -> Made<Number>
    ensures { RowKnown from (boolean_cell (ret (neg (lit (cell_of a.now))))) result }
{
    single(Made {
        value: -literal(a),
        to: from,
    })
}

pub fn and(slots: &mut [i32], from: Cursor, a: &Operand, b: &Operand) -> Made<Number>
    requires { RoomFor from (boolean_cell (make (and (lit (cell_of a.now)) (lit (cell_of b.now))))) slots.old }
    ensures { RowMade from (boolean_cell (make (and (lit (cell_of a.now)) (lit (cell_of b.now))))) slots.old slots.new result }
{
    single(gate::and(slots, from, literal(a), literal(b)))
}

pub fn or(slots: &mut [i32], from: Cursor, a: &Operand, b: &Operand) -> Made<Number>
    requires { RoomFor from (boolean_cell (negated (make (and (neg (lit (cell_of a.now))) (neg (lit (cell_of b.now))))))) slots.old }
    ensures { RowMade from (boolean_cell (negated (make (and (neg (lit (cell_of a.now))) (neg (lit (cell_of b.now))))))) slots.old slots.new result }
{
    single(not(gate::and(slots, from, -literal(a), -literal(b))))
}

pub fn implies(slots: &mut [i32], from: Cursor, a: &Operand, b: &Operand) -> Made<Number>
    requires { RoomFor from (boolean_cell (negated (make (and (lit (cell_of a.now)) (neg (lit (cell_of b.now))))))) slots.old }
    ensures { RowMade from (boolean_cell (negated (make (and (lit (cell_of a.now)) (neg (lit (cell_of b.now))))))) slots.old slots.new result }
{
    single(not(gate::and(slots, from, literal(a), -literal(b))))
}

pub fn iff(slots: &mut [i32], from: Cursor, a: &Operand, b: &Operand) -> Made<Number>
    requires { RoomFor from (boolean_cell (negated (make (xor (lit (cell_of a.now)) (lit (cell_of b.now)))))) slots.old }
    ensures { RowMade from (boolean_cell (negated (make (xor (lit (cell_of a.now)) (lit (cell_of b.now)))))) slots.old slots.new result }
{
    single(not(gate::xor(slots, from, literal(a), literal(b))))
}

// Greater and equal, written gate by gate, bits lowest first.
#![tactic(auto)]

ghost use Rattle.circuit.specs.Literals.{truth, falsity};
ghost use Rattle.circuit.specs.Numbers.{greater_from, equal_from};
ghost use Rattle.frame.specs.Written.{RoomFor, Makes};
ghost use Rattle.compare.specs.Comparing.{order_bit, match_bit};

use frame::{Cursor, Lit, Made};

// One bit of greater: p stands in a's place in the second gate.
fn put_order(slots: &mut [i32], from: Cursor, a: Lit, b: Lit, p: Lit, g: Lit) -> Made<Lit>
    requires { RoomFor from (order_bit a b p g) slots.old }
    ensures { Makes from (order_bit a b p g) slots.old slots.new result }
{
    let d = gate::xor(slots, from, a, b);
    gate::mux(slots, d.to, d.value, p, g)
}

// One bit of equal.
fn put_match(slots: &mut [i32], from: Cursor, a: Lit, b: Lit, e: Lit) -> Made<Lit>
    requires { RoomFor from (match_bit a b e) slots.old }
    ensures { Makes from (match_bit a b e) slots.old slots.new result }
{
    let d = gate::xor(slots, from, a, b);
    gate::and(slots, d.to, e, -d.value)
}

// Whether x and y are equal.
pub fn equal(slots: &mut [i32], from: Cursor, x: &[Lit], y: &[Lit]) -> Made<Lit>
    requires { RoomFor from (equal_from truth x.now y.now) slots.old }
    ensures { Makes from (equal_from truth x.now y.now) slots.old slots.new result }
{
    let mut e = Made {
        value: Lit::TRUTH,
        to: from,
    };
    for (a, b) in x.iter().zip(y) {
        e = put_match(slots, e.to, *a, *b, e.value);
    }
    e
}

// Whether x is above y. At the sign, the last place of x, y's bit stands in x's place.
pub fn greater(slots: &mut [i32], from: Cursor, x: &[Lit], y: &[Lit]) -> Made<Lit>
    requires { RoomFor from (greater_from falsity x.now y.now) slots.old }
    ensures { Makes from (greater_from falsity x.now y.now) slots.old slots.new result }
{
    let mut g = Made {
        value: Lit::FALSITY,
        to: from,
    };
    for (i, (a, b)) in x.iter().zip(y).enumerate() {
        let p = if i + 1 < x.len() { *a } else { *b };
        g = put_order(slots, g.to, *a, *b, p, g.value);
    }
    g
}

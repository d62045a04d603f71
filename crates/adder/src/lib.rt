// The adder, written gate by gate: bits lowest first, each with its carry.
#![tactic(auto)]

ghost use Rattle.std.specs.Prelude.{◌≤◌, length};
ghost use Rattle.circuit.specs.Numbers.{adder};
ghost use Rattle.frame.specs.Written.{RoomFor, Makes};
ghost use Rattle.adder.specs.Adding.{adder_bit};

use frame::{Cursor, Lit, Made, Number};

// A bit of a sum, and its carry.
#[derive(Clone, Copy)]
pub struct Bit {
    pub sum: Lit,
    pub carry: Lit,
}

// One bit: three gates.
fn put_bit(slots: &mut [i32], from: Cursor, a: Lit, b: Lit, carry: Lit) -> Made<Bit>
    requires { RoomFor from (adder_bit a b carry) slots.old }
    ensures { Makes from (adder_bit a b carry) slots.old slots.new result }
{
    let t = gate::xor(slots, from, a, b);
    let s = gate::xor(slots, t.to, t.value, carry);
    let c = gate::maj(slots, s.to, a, b, carry);
    Made {
        value: Bit {
            sum: s.value,
            carry: c.value,
        },
        to: c.to,
    }
}

// The sum of x, y and a carry, place by place.
pub fn add(slots: &mut [i32], from: Cursor, x: &[Lit], y: &[Lit], carry: Lit) -> Made<Number>
    requires few { length x.now ≤ 48 }
    requires room { RoomFor from (adder carry x.now y.now) slots.old }
    ensures { Makes from (adder carry x.now y.now) slots.old slots.new result }
{
    let mut sum = Number::empty();
    let mut to = from;
    let mut carry = carry;
    for (a, b) in x.iter().zip(y) {
        let bit = put_bit(slots, to, *a, *b, carry);
        sum.push(bit.value.sum);
        carry = bit.value.carry;
        to = bit.to;
    }
    Made { value: sum, to }
}

// Rows of numbers that refer to no other: unknowns and constants. They write no clauses.
#![tactic(auto)]

ghost use Rattle.std.specs.Prelude.{ℕ, ◌+◌, ◌≤◌, ◌<◌};
ghost use Rattle.circuit.specs.Circuits.{ret};
ghost use Rattle.circuit.specs.Numbers.{unknown, constant};
ghost use Rattle.sheet.specs.Rows.{constant_in};
ghost use Rattle.sheet.specs.Steps.{number_cell, with_sign};
ghost use Rattle.literal_map.specs.Rows.{RowKnown};

use frame::{Cursor, Lit, Made, Number};

// An integer takes one variable a bit.
pub fn integer(from: Cursor, p: u8) -> Made<Number>
    requires few { p ≤ 48 }
    requires room { from.next + p < 2147483648 }
    ensures { (z : ℕ) → RowKnown from (number_cell z (unknown p)) result }
{
    let mut value = Number::empty();
    let mut next = from.next;
    for _ in 0..p {
        value.push(Lit::fresh(next));
        next += 1;
    }
    Made {
        value,
        to: Cursor { at: from.at, next },
    }
}

// So does a natural; its sign is falsity.
pub fn natural(from: Cursor, p: u8) -> Made<Number>
    requires few { p + 1 ≤ 48 }
    requires room { from.next + p < 2147483648 }
    ensures { (z : ℕ) → RowKnown from (number_cell z (with_sign (unknown p))) result }
{
    let mut made = integer(from, p);
    made.value.push(Lit::FALSITY);
    made
}

// A constant takes none.
pub fn constant(from: Cursor, x: u16, y: u16) -> Made<Number>
    ensures { (z : ℕ) → RowKnown from (number_cell z (ret (constant (constant_in x y)))) result }
{
    Made {
        value: literals::constant(numbers::constant(x, y)),
        to: from,
    }
}

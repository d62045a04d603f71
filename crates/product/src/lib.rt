// The product, written gate by gate: a row of AND gates for each bit of y, added to the running total from that bit's place on.
#![tactic(auto)]

ghost use Rattle.std.specs.Prelude.{◌≤◌, length};
ghost use Rattle.circuit.specs.Numbers.{ands, multiplier};
ghost use Rattle.frame.specs.Written.{RoomFor, Makes};
ghost use Rattle.product.specs.Multiplying.{added_row};

use frame::{Cursor, Lit, Made, Number};

// AND of `bit` and each of the first n literals of x.
fn and_row(slots: &mut [i32], from: Cursor, x: &[Lit], n: usize, bit: Lit) -> Made<Number>
    requires few { n ≤ 48 }
    requires room { RoomFor from (ands n x.now bit) slots.old }
    ensures { Makes from (ands n x.now bit) slots.old slots.new result }
{
    let mut row = Number::empty();
    let mut to = from;
    for a in x.iter().take(n) {
        let g = gate::and(slots, to, *a, bit);
        row.push(g.value);
        to = g.to;
    }
    Made { value: row, to }
}

// One row, and its sum with the running total from its place on.
fn add_row(slots: &mut [i32], from: Cursor, x: &[Lit], bit: Lit, total: &[Lit]) -> Made<Number>
    requires few { length total.now ≤ 48 }
    requires room { RoomFor from (added_row x.now bit total.now) slots.old }
    ensures { Makes from (added_row x.now bit total.now) slots.old slots.new result }
{
    let row = and_row(slots, from, x, total.len(), bit);
    adder::add(slots, row.to, total, row.value.literals(), Lit::FALSITY)
}

// The product of x and y: of each total the lowest literal is the product's, the others go into the next row's sum.
pub fn multiply(slots: &mut [i32], from: Cursor, x: &[Lit], y: &[Lit]) -> Made<Number>
    requires few { length x.now ≤ 48 }
    requires room { RoomFor from (multiplier x.now y.now) slots.old }
    ensures { Makes from (multiplier x.now y.now) slots.old slots.new result }
{
    let mut product = Number::empty();
    let Some((first, others)) = y.split_first() else {
        return Made {
            value: product,
            to: from,
        };
    };
    let mut total = and_row(slots, from, x, x.len(), *first);
    for bit in others {
        let Some((lowest, above)) = total.value.literals().split_first() else {
            break;
        };
        product.push(*lowest);
        total = add_row(slots, total.to, x, *bit, above);
    }
    for literal in total.value.literals() {
        product.push(*literal);
    }
    Made {
        value: product,
        to: total.to,
    }
}

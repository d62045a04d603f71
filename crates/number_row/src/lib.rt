// Rows over two numbers: both are brought to one denominator, x before y before z, then the operation is written.
#![tactic(auto)]

ghost use Rattle.std.specs.Prelude.{◌≡◌, max, ◌+◌, ◌*◌, ◌≤◌, length};
ghost use Rattle.circuit.specs.Numbers.{sum, difference, product, greater, equal, choice};
ghost use Rattle.sheet.specs.Acceptance.{larger};
ghost use Rattle.sheet.specs.Steps.{number_cell, lit};
ghost use Rattle.frame.specs.Written.{RoomFor, Makes};
ghost use Rattle.literal_map.specs.Cells.{cell_of};
ghost use Rattle.literal_map.specs.Rows.{RowMade};
ghost use Rattle.number_row.specs.Over.{IsOver};
ghost use Rattle.number_row.specs.Bringing.{both, number_of, test_of};

use frame::{Cursor, Made, Number};
use literal_map::Operand;

// Two numbers over one denominator.
#[derive(Clone, Copy)]
pub struct Pair {
    pub x: Number,
    pub y: Number,
}

// Both numbers over the least common multiple of their denominators, as wide as acceptance says.
fn bring(slots: &mut [i32], from: Cursor, a: &Operand, b: &Operand) -> Made<Pair>
    requires over_a { IsOver a.now }
    requires over_b { IsOver b.now }
    requires fits { larger a.now.record b.now.record ≤ 48 }
    requires room { RoomFor from (both a.now b.now) slots.old }
    ensures makes { Makes from (both a.now b.now) slots.old slots.new result }
    ensures wide { max (length result.value.x) (length result.value.y) ≡ larger a.now.record b.now.record }
{
    let common = numbers::lcm(a.record.denominator, b.record.denominator);
    let x = operation::expansion(slots, from, common / a.record.denominator, &a.number);
    let y = operation::expansion(slots, x.to, common / b.record.denominator, &b.number);
    Made {
        value: Pair {
            x: x.value,
            y: y.value,
        },
        to: y.to,
    }
}

pub fn sum(slots: &mut [i32], from: Cursor, a: &Operand, b: &Operand) -> Made<Number>
    requires over_a { IsOver a.now }
    requires over_b { IsOver b.now }
    requires fits { larger a.now.record b.now.record + 1 ≤ 48 }
    requires room { RoomFor from (number_of a.now b.now sum) slots.old }
    ensures { RowMade from (number_of a.now b.now sum) slots.old slots.new result }
{
    let p = bring(slots, from, a, b);
    operation::sum(slots, p.to, &p.value.x, &p.value.y)
}

pub fn difference(slots: &mut [i32], from: Cursor, a: &Operand, b: &Operand) -> Made<Number>
    requires over_a { IsOver a.now }
    requires over_b { IsOver b.now }
    requires fits { larger a.now.record b.now.record + 1 ≤ 48 }
    requires room { RoomFor from (number_of a.now b.now difference) slots.old }
    ensures { RowMade from (number_of a.now b.now difference) slots.old slots.new result }
{
    let p = bring(slots, from, a, b);
    operation::difference(slots, p.to, &p.value.x, &p.value.y)
}

// A product is over the product of the denominators, so nothing is brought.
pub fn product(slots: &mut [i32], from: Cursor, a: &Operand, b: &Operand) -> Made<Number>
    requires over_a { IsOver a.now }
    requires over_b { IsOver b.now }
    requires fits { a.now.record.width + b.now.record.width ≤ 48 }
    requires room { RoomFor from (number_cell (a.now.record.denominator * b.now.record.denominator) (product a.now.number b.now.number)) slots.old }
    ensures { RowMade from (number_cell (a.now.record.denominator * b.now.record.denominator) (product a.now.number b.now.number)) slots.old slots.new result }
{
    operation::product(slots, from, &a.number, &b.number)
}

// The number b if a holds, else c.
pub fn choice(
    slots: &mut [i32],
    from: Cursor,
    a: &Operand,
    b: &Operand,
    c: &Operand,
) -> Made<Number>
    requires over_b { IsOver b.now }
    requires over_c { IsOver c.now }
    requires fits { larger b.now.record c.now.record ≤ 48 }
    requires room { RoomFor from (number_of b.now c.now (choice (lit (cell_of a.now)))) slots.old }
    ensures { RowMade from (number_of b.now c.now (choice (lit (cell_of a.now)))) slots.old slots.new result }
{
    let condition = boolean_row::literal(a);
    let p = bring(slots, from, b, c);
    operation::choice(slots, p.to, condition, &p.value.x, &p.value.y)
}

pub fn greater(slots: &mut [i32], from: Cursor, a: &Operand, b: &Operand) -> Made<Number>
    requires over_a { IsOver a.now }
    requires over_b { IsOver b.now }
    requires fits { larger a.now.record b.now.record ≤ 48 }
    requires room { RoomFor from (test_of a.now b.now greater) slots.old }
    ensures { RowMade from (test_of a.now b.now greater) slots.old slots.new result }
{
    let p = bring(slots, from, a, b);
    boolean_row::single(operation::greater(slots, p.to, &p.value.x, &p.value.y))
}

pub fn equal(slots: &mut [i32], from: Cursor, a: &Operand, b: &Operand) -> Made<Number>
    requires over_a { IsOver a.now }
    requires over_b { IsOver b.now }
    requires fits { larger a.now.record b.now.record ≤ 48 }
    requires room { RoomFor from (test_of a.now b.now equal) slots.old }
    ensures { RowMade from (test_of a.now b.now equal) slots.old slots.new result }
{
    let p = bring(slots, from, a, b);
    boolean_row::single(operation::equal(slots, p.to, &p.value.x, &p.value.y))
}

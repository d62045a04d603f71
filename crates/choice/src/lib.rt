// Choice, written gate by gate: one MUX a bit.
#![tactic(auto)]

ghost use Rattle.std.specs.Prelude.{◌≤◌, length};
ghost use Rattle.circuit.specs.Numbers.{muxes};
ghost use Rattle.frame.specs.Written.{RoomFor, Makes};

use frame::{Cursor, Lit, Made, Number};

// x if the condition holds, else y.
pub fn choose(slots: &mut [i32], from: Cursor, condition: Lit, x: &[Lit], y: &[Lit]) -> Made<Number>
    requires few { length x.now ≤ 48 }
    requires room { RoomFor from (muxes condition x.now y.now) slots.old }
    ensures { Makes from (muxes condition x.now y.now) slots.old slots.new result }
{
    let mut chosen = Number::empty();
    let mut to = from;
    for (a, b) in x.iter().zip(y) {
        let g = gate::mux(slots, to, condition, *a, *b);
        chosen.push(g.value);
        to = g.to;
    }
    Made { value: chosen, to }
}

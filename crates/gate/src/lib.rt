// The gate writers. Each writes the clauses of one gate where writing goes on, and answers the gate's literal and where writing goes on behind them.
// In a writer g is the slot of the gate's literal; a, b and c become slots too, and ng, na, nb and nc are those of the negations.
#![tactic(auto)]

ghost use Rattle.std.specs.Prelude.{◌≡◌, ◌+◌, ◌≤◌, ◌<◌, length};
ghost use Rattle.circuit.specs.Gates.{and, xor, mux, maj};
ghost use Rattle.circuit.specs.Circuits.{make};
ghost use Rattle.frame.specs.Frame.{front, over};
ghost use Rattle.frame.specs.Written.{RoomFor, Makes};

use frame::{Cursor, Lit, Made};

// Writes clauses over the front of the slots that remain.
fn write(out: &mut [i32], clauses: &[i32])
    requires { length clauses.now ≤ length out.old }
    ensures { out.new ≡ front clauses.now out.old }
{
    out[..clauses.len()].copy_from_slice(clauses);
}

// Writes the clauses of the gate that makes the literal into the slots that remain.
fn put(slots: &mut [i32], from: Cursor, literal: Lit, clauses: &[i32]) -> Made<Lit>
    requires place { from.at + length clauses.now ≤ length slots.old }
    requires number { from.next < 2147483647 }
    ensures slots { slots.new ≡ over from.at clauses.now slots.old }
    ensures literal { result.value ≡ literal }
    ensures place { result.to.at ≡ from.at + length clauses.now }
    ensures number { result.to.next ≡ from.next + 1 }
{
    write(&mut slots[from.at..], clauses);
    let to = Cursor {
        at: from.at + clauses.len(),
        next: from.next + 1,
    };
    Made { value: literal, to }
}

// AND(a, b): 3 clauses in 10 slots.
pub fn and(slots: &mut [i32], from: Cursor, a: Lit, b: Lit) -> Made<Lit>
    requires { RoomFor from (make (and a b)) slots.old }
    ensures { Makes from (make (and a b)) slots.old slots.new result }
{
    let literal = Lit::fresh(from.next);
    let (g, ng) = (literal.slot(), (-literal).slot());
    let (a, na) = (a.slot(), (-a).slot());
    let (b, nb) = (b.slot(), (-b).slot());
    let clauses = [ng, a, 0, ng, b, 0, g, na, nb, 0];
    put(slots, from, literal, &clauses)
}

// XOR(a, b): 4 clauses in 16 slots.
pub fn xor(slots: &mut [i32], from: Cursor, a: Lit, b: Lit) -> Made<Lit>
    requires { RoomFor from (make (xor a b)) slots.old }
    ensures { Makes from (make (xor a b)) slots.old slots.new result }
{
    let literal = Lit::fresh(from.next);
    let (g, ng) = (literal.slot(), (-literal).slot());
    let (a, na) = (a.slot(), (-a).slot());
    let (b, nb) = (b.slot(), (-b).slot());
    let clauses = [ng, a, b, 0, ng, na, nb, 0, g, na, b, 0, g, a, nb, 0];
    put(slots, from, literal, &clauses)
}

// MUX(c, a, b), which is a if c, else b: 4 clauses in 16 slots.
pub fn mux(slots: &mut [i32], from: Cursor, c: Lit, a: Lit, b: Lit) -> Made<Lit>
    requires { RoomFor from (make (mux c a b)) slots.old }
    ensures { Makes from (make (mux c a b)) slots.old slots.new result }
{
    let literal = Lit::fresh(from.next);
    let (g, ng) = (literal.slot(), (-literal).slot());
    let (c, nc) = (c.slot(), (-c).slot());
    let (a, na) = (a.slot(), (-a).slot());
    let (b, nb) = (b.slot(), (-b).slot());
    let clauses = [ng, nc, a, 0, ng, c, b, 0, g, nc, na, 0, g, c, nb, 0];
    put(slots, from, literal, &clauses)
}

// MAJ(a, b, c): 6 clauses in 24 slots.
pub fn maj(slots: &mut [i32], from: Cursor, a: Lit, b: Lit, c: Lit) -> Made<Lit>
    requires { RoomFor from (make (maj a b c)) slots.old }
    ensures { Makes from (make (maj a b c)) slots.old slots.new result }
{
    let literal = Lit::fresh(from.next);
    let (g, ng) = (literal.slot(), (-literal).slot());
    let (a, na) = (a.slot(), (-a).slot());
    let (b, nb) = (b.slot(), (-b).slot());
    let (c, nc) = (c.slot(), (-c).slot());
    let clauses = [
        ng, a, b, 0, ng, a, c, 0, ng, b, c, 0, g, na, nb, 0, g, na, nc, 0, g, nb, nc, 0,
    ];
    put(slots, from, literal, &clauses)
}

// What the writers share: a literal, a number's literals, where writing goes on and what a writer answers. Laws in proofs/.
#![tactic(auto)]

ghost use Rattle.std.specs.Prelude.{◌≡◌, [], ◌∷◌, ◌++◌, ◌≤◌, ◌<◌, length};
ghost use Rattle.circuit.specs.Literals.{plus, neg, known, slot};
ghost use Rattle.frame.specs.Literals.{unslot, IsLit};

use std::marker::Model;
use std::ops::Neg;

// A literal: a variable of the clauses, or its negation. It is kept as its slot.
#[derive(Clone, Copy)]
pub struct Lit {
    slot: i32,
}

impl Model for Lit {
    ghost use Rattle.circuit.specs.Literals.{Lit};
    ghost use Rattle.frame.specs.Coding.{lit_code};

    ghost Value = { Lit };

    ghost coded = { lit_code };

    ghost use Rattle.frame.specs.Inside.{lit_in, slot_in, IsInside, back};

    ghost view = { lit_in };

    ghost invariant = { IsInside };

    ghost inverse = { slot_in };

    ghost inverse_ok = { back };
}

impl Lit {
    pub const TRUTH: Lit = Lit { slot: 1 };

    pub const FALSITY: Lit = Lit { slot: -1 };

    // The literal of a truth that is known.
    pub fn known(truth: bool) -> Self
        ensures { result ≡ known truth }
    {
        if truth { Self::TRUTH } else { Self::FALSITY }
    }

    // The literal of the next variable.
    pub fn fresh(next: u32) -> Self
        requires { next < 2147483647 }
        ensures { result ≡ plus next }
    {
        Lit {
            slot: (next + 1) as i32,
        }
    }

    // The literal in a slot.
    pub fn read(slot: i32) -> Self
        requires { IsLit slot }
        ensures { result ≡ unslot slot }
    {
        Lit { slot }
    }

    pub fn slot(self) -> i32
        ensures { result ≡ slot self }
    {
        self.slot
    }
}

impl Neg for Lit {
    type Output = Lit;

    ghost neg_gives = { λ a r. r ≡ neg a };

    fn neg(self) -> Lit {
        Lit { slot: -self.slot }
    }
}

// A number of the code: its literals, lowest first, the last its sign. It has at most 48, in a fixed place: nothing is allocated.
#[derive(Clone, Copy)]
pub struct Number {
    bits: [Lit; 48],
    width: usize,
}

impl Model for Number {
    ghost use Rattle.std.specs.Prelude.{List, take};
    ghost use Rattle.std.specs.Coded.{coded_list};
    ghost use Rattle.circuit.specs.Literals.{Lit};
    ghost use Rattle.frame.specs.Coding.{lit_code};

    ghost Value = { List Lit };

    ghost coded = { coded_list lit_code };

    ghost use Rattle.frame.specs.Held.{held, in_places, IsHeld, back};

    ghost view = { held };

    ghost invariant = { IsHeld };

    ghost inverse = { in_places };

    ghost inverse_ok = { back };
}

impl Number {
    pub fn empty() -> Self
        ensures { result ≡ [] }
    {
        let falsity = Lit::FALSITY;
        Number {
            bits: [falsity; 48],
            width: 0,
        }
    }

    pub fn push(&mut self, literal: Lit)
        requires { length self.old < 48 }
        ensures { self.new ≡ self.old ++ literal ∷ [] }
    {
        self.bits[self.width] = literal;
        self.width += 1;
    }

    pub fn width(&self) -> usize
        ensures width { result ≡ length self.now }
        ensures few { length self.now ≤ 48 }
    {
        self.width
    }

    pub fn literals(&self) -> &[Lit]
        ensures literals { result.now ≡ self.now }
        ensures few { length self.now ≤ 48 }
    {
        &self.bits[..self.width]
    }
}

// Where writing goes on: the next free slot, and how many variables are made.
#[derive(Clone, Copy)]
pub struct Cursor {
    pub at: usize,
    pub next: u32,
}

// What was made of gates that were written, and where writing goes on behind them.
#[derive(Clone, Copy)]
pub struct Made<T> {
    pub value: T,
    pub to: Cursor,
}

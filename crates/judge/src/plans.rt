// What a row comes to once its fields, references and sorts have passed.
ghost use Rattle.std.specs.Prelude.{◌≡◌, false, ◌+◌, ◌≤◌};
ghost use Rattle.whole.specs.Bits.{fewest};
ghost use Rattle.circuit.specs.Counting.{nothing, an_unknown};
ghost use Rattle.sheet.specs.Rows.{constant_in, uses};
ghost use Rattle.sheet.specs.Acceptance.{number_plan, out_of_range, plan_by};
ghost use Rattle.numbers.specs.Bounds.{Denominator};
ghost use Rattle.judge.specs.Bounds.{InLimits, Bounded};
ghost use Rattle.judge.specs.Parts.{settled};

use crate::{combined, passing};
use circuit::Counts;
use counting::NOTHING;
use sheet::{Fields, Kind, Passed, Reason, Record, References};

// What a Boolean unknown and the gates count.
const UNKNOWN: Counts = Counts {
    unknowns: 1,
    variables: 1,
    clauses: 0,
    slots: 0,
};

const AND: Counts = Counts {
    unknowns: 0,
    variables: 1,
    clauses: 3,
    slots: 10,
};

const XOR: Counts = Counts {
    unknowns: 0,
    variables: 1,
    clauses: 4,
    slots: 16,
};

const MUX: Counts = Counts {
    unknowns: 0,
    variables: 1,
    clauses: 4,
    slots: 16,
};

// A bit of an adder: XOR, XOR and MAJ; of greater: XOR and MUX; of equal: XOR and AND.
const ADDING: Counts = Counts {
    unknowns: 0,
    variables: 3,
    clauses: 14,
    slots: 56,
};

const ORDERING: Counts = Counts {
    unknowns: 0,
    variables: 2,
    clauses: 8,
    slots: 32,
};

const MATCHING: Counts = Counts {
    unknowns: 0,
    variables: 2,
    clauses: 7,
    slots: 26,
};

// An unknown number of p bits and so many bits of sign, over z.
fn unknown(first: u32, p: u8, sign: u32, z: u16) -> Result<Passed, Reason>
    requires p_most { p + sign ≤ 48 }
    requires denominator_z { Denominator z }
    ensures answer { result ≡ settled first (number_plan (p + sign) z (an_unknown p)) }
    ensures bounded { Bounded result }
{
    let bits = u32::from(p);
    let counts = Counts {
        unknowns: 1,
        variables: bits,
        clauses: 0,
        slots: 0,
    };
    passing::number(first, bits + sign, u32::from(z), counts)
}

// A number constant over z, x and y the halves of its numerator.
fn constant(first: u32, x: u16, y: u16, z: u16) -> Result<Passed, Reason>
    requires { Denominator z }
    ensures answer { result ≡ settled first (number_plan (fewest (constant_in x y)) z nothing) }
    ensures bounded { Bounded result }
{
    passing::number(
        first,
        numbers::bits(numbers::constant(x, y)),
        u32::from(z),
        NOTHING,
    )
}

// Refusals 8 and 9, or the row's record and what it counts.
#[tactic(auto, unfolding(crate::specs::Parts::combined_plan))]
pub fn settle(first: u32, f: Fields, of: References<Record>) -> Result<Passed, Reason>
    requires x { InLimits of.x }
    requires y { InLimits of.y }
    requires z { InLimits of.z }
    requires ranged { out_of_range (uses f.kind) f.p f.x f.z ≡ false }
    ensures answer { result ≡ settled first (plan_by f.kind f.p f.x f.y f.z of.x of.y of.z) }
    ensures bounded { Bounded result }
{
    let (a, b, c) = (of.x, of.y, of.z);
    match f.kind {
        Kind::BooleanConstant | Kind::Not => passing::boolean(first, NOTHING),
        Kind::BooleanUnknown => passing::boolean(first, UNKNOWN),
        Kind::NaturalUnknown => unknown(first, f.p, 1, f.z),
        Kind::IntegerUnknown => unknown(first, f.p, 0, f.z),
        Kind::NumberConstant => constant(first, f.x, f.y, f.z),
        Kind::And | Kind::Or | Kind::Implies => passing::boolean(first, AND),
        Kind::Iff => passing::boolean(first, XOR),
        Kind::Sum | Kind::Difference => combined::combined(first, 1, 1, ADDING, a, b),
        Kind::Product => combined::multiplied(
            first,
            a.width,
            b.width,
            a.denominator,
            b.denominator,
        ),
        Kind::Choice => combined::combined(first, 1, 0, MUX, b, c),
        Kind::Greater => combined::combined(first, 0, 0, ORDERING, a, b),
        Kind::Equal => combined::combined(first, 0, 0, MATCHING, a, b),
    }
}

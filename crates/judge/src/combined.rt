// Numbers of two rows: their product, or both brought to one denominator and combined bit by bit, with refusals 8 and 9.
ghost use Rattle.std.specs.Prelude.{◌≡◌, ◌+◌, ◌*◌, ◌≤◌};
ghost use Rattle.circuit.specs.Counting.{◌⊕◌, a_product, an_expansion, expanded_width};
ghost use Rattle.circuit.specs.Counting as Counting;
ghost use Rattle.sheet.specs.Acceptance.{number_plan};
ghost use Rattle.numbers.specs.Bounds.{Denominator};
ghost use Rattle.counting.specs.Bounds.{Below};
ghost use Rattle.judge.specs.Bounds.{InLimits, Bounded};
ghost use Rattle.judge.specs.Parts.{settled, combined_plan};

use crate::passing;
use circuit::Counts;
use sheet::{Passed, Reason, Record};

// A product of numbers of widths v and w over the denominators d and e.
#[tactic(auto, unfolding(crate::specs::Parts::settled))]
pub fn multiplied(first: u32, v: u32, w: u32, d: u32, e: u32) -> Result<Passed, Reason>
    requires v_most { v ≤ 48 }
    requires w_most { w ≤ 48 }
    requires denominator_d { Denominator d }
    requires denominator_e { Denominator e }
    ensures answer { result ≡ settled first (number_plan (v + w) (d * e) (a_product (v + w))) }
    ensures bounded { Bounded result }
{
    let denominator = d * e;
    if 4096 < denominator {
        return Err(Reason::LargeDenominator);
    }
    let total = v + w;
    if 48 < total {
        return Err(Reason::TooWide);
    }
    passing::number(first, total, denominator, counting::product(total))
}

// What it counts to expand numbers of v and w bits by the factors f and g, and to combine so many bits, each counting `bit`.
fn counted(v: u32, f: u32, w: u32, g: u32, width: u32, bit: Counts) -> Counts
    requires expanded_width_most { expanded_width v f ≤ 48 }
    requires expanded_width_most_too { expanded_width w g ≤ 48 }
    requires width_most { width ≤ 48 }
    requires below_bit { Below 56 bit }
    ensures answer { result ≡ an_expansion v f ⊕ an_expansion w g ⊕ Counting.times width bit }
    ensures bounded { Below 170000 result }
{
    let brought = counting::plus(counting::expansion(v, f), counting::expansion(w, g));
    counting::plus(brought, counting::times(width, bit))
}

// a and b over the least common multiple of their denominators, combined at the larger width and so many bits more, each bit
// counting `bit`: to a comparison where the sort is 0, else to a number.
#[tactic(auto, unfolding(crate::specs::Parts::settled, crate::specs::Parts::combined_plan))]
pub fn combined(
    first: u32,
    sort: u32,
    wider: u32,
    bit: Counts,
    a: Record,
    b: Record,
) -> Result<Passed, Reason>
    requires wider_most { wider ≤ 1 }
    requires below_bit { Below 56 bit }
    requires in_limits_a { InLimits a }
    requires in_limits_b { InLimits b }
    ensures answer { result ≡ settled first (combined_plan sort wider bit a b) }
    ensures bounded { Bounded result }
{
    let common = numbers::lcm(a.denominator, b.denominator);
    if 4096 < common {
        return Err(Reason::LargeDenominator);
    }
    let f = common / a.denominator;
    let g = common / b.denominator;
    let both = counting::expanded_width(a.width, f).max(counting::expanded_width(b.width, g));
    let width = both + wider;
    if 48 < width {
        return Err(Reason::TooWide);
    }
    let counts = counted(a.width, f, b.width, g, width, bit);
    if sort == 0 {
        return passing::boolean(first, counts);
    }
    passing::number(first, width, common, counts)
}

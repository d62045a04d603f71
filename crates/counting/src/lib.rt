// What rows count: variables, clauses and slots of parts together, of bits that count alike, of a product and of an expansion.
#![tactic(auto)]

ghost use Rattle.std.specs.Prelude.{◌≡◌, ◌≤◌, ◌+◌};
ghost use Rattle.circuit.specs.Counting as Counting;
ghost use Rattle.counting.specs.Bounds.{Below};

use circuit::Counts;

// What a row without clauses and variables counts.
pub const NOTHING: Counts = Counts {
    unknowns: 0,
    variables: 0,
    clauses: 0,
    slots: 0,
};

// What two parts count together: no table comes near the bound.
pub fn plus(a: Counts, b: Counts) -> Counts
    requires { (Below 1000000000 a) × (Below 1000000000 b) }
    ensures { result ≡ Counting.◌⊕◌ a b }
{
    Counts {
        unknowns: a.unknowns + b.unknowns,
        variables: a.variables + b.variables,
        clauses: a.clauses + b.clauses,
        slots: a.slots + b.slots,
    }
}

// What n bits count, where each counts a, at most as much as a bit of an adder.
#[tactic(auto, using(crate::proofs::Bounds::bits_times))]
pub fn times(n: u32, a: Counts) -> Counts
    requires n_most { n ≤ 48 }
    requires below_a { Below 56 a }
    ensures answer { result ≡ Counting.times n a }
    ensures bounded { Below 2688 result }
{
    Counts {
        unknowns: n * a.unknowns,
        variables: n * a.variables,
        clauses: n * a.clauses,
        slots: n * a.slots,
    }
}

// What a product of w bits counts.
#[tactic(auto, using(crate::proofs::Bounds::square), unfolding(circuit::specs::Counting::a_product))]
pub fn product(w: u32) -> Counts
    requires { w ≤ 48 }
    ensures answer { result ≡ Counting.a_product w }
    ensures bounded { Below 80000 result }
{
    let square = w * w;
    Counts {
        unknowns: 0,
        variables: 2 * square - w,
        clauses: (17 * square - 11 * w) / 2,
        slots: 33 * square - 23 * w,
    }
}

// The width of a number of w bits that is expanded by a factor.
#[tactic(auto, using(numbers::proofs::Digits::fewest_natural), unfolding(circuit::specs::Counting::expanded_width))]
pub fn expanded_width(w: u32, factor: u32) -> u32
    requires { w ≤ 48 }
    ensures answer { result ≡ Counting.expanded_width w factor }
    ensures bounded { result ≤ 81 }
{
    if factor == 1 {
        return w;
    }
    w + numbers::bits(i64::from(factor))
}

// What the expansion of a number of w bits by a factor counts.
#[tactic(auto, unfolding(circuit::specs::Counting::expanded_width, circuit::specs::Counting::an_expansion))]
pub fn expansion(w: u32, factor: u32) -> Counts
    requires { Counting.expanded_width w factor ≤ 48 }
    ensures answer { result ≡ Counting.an_expansion w factor }
    ensures bounded { Below 80000 result }
{
    if factor == 1 {
        return NOTHING;
    }
    product(w + numbers::bits(i64::from(factor)))
}

// The judge of a row that was read: it passes with its record and what it counts, or stops with refusal 5 to 9. Nothing is computed
// before the tests in front of it, and the denominators of two numbers are brought together once.
#![tactic(auto)]

ghost use Rattle.std.specs.Prelude.{◌≡◌};
ghost use Rattle.sheet.specs.Acceptance.{judge_by};
ghost use Rattle.judge.specs.Bounds.{InLimits, Bounded};

use sheet::{Fields, Passed, Reason, Record, References};

mod combined;
mod operands;
mod passing;
mod plans;
mod ranges;

// The verdict on a row after so many others: `of` are the records of the rows that x, y and z name, and `first` is the next free slot.
#[tactic(auto, unfolding(crate::specs::Parts::settled))]
pub fn judge_row(
    rows: usize,
    first: u32,
    f: Fields,
    of: References<Record>,
) -> Result<Passed, Reason>
    requires x { InLimits of.x }
    requires y { InLimits of.y }
    requires z { InLimits of.z }
    ensures answer { result ≡ judge_by rows first f.kind f.p f.x f.y f.z of.x of.y of.z }
    ensures bounded { Bounded result }
{
    if ranges::out_of_range(f) {
        return Err(Reason::OutOfRange);
    }
    let sorts = operands::sorts_in(f.kind);
    if operands::some_not_earlier(rows, sorts, &[f.x, f.y, f.z]) {
        return Err(Reason::NotEarlier);
    }
    if operands::some_of_wrong_sort(sorts, &[of.x, of.y, of.z]) {
        return Err(Reason::WrongSort);
    }
    plans::settle(first, f, of)
}

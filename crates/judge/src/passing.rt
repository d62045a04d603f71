// A row passes: its record begins at the next free slot.
ghost use Rattle.std.specs.Prelude.{◌≡◌, ◌≤◌};
ghost use Rattle.sheet.specs.Acceptance.{boolean_plan, number_plan};
ghost use Rattle.numbers.specs.Bounds.{Denominator};
ghost use Rattle.counting.specs.Bounds.{Below};
ghost use Rattle.judge.specs.Bounds.{Bounded};
ghost use Rattle.judge.specs.Parts.{settled};

use circuit::Counts;
use sheet::{Passed, Reason, Record};

// A Boolean has width and denominator 1.
#[tactic(auto, unfolding(crate::specs::Parts::settled))]
pub fn boolean(first: u32, counts: Counts) -> Result<Passed, Reason>
    requires { Below 170000 counts }
    ensures answer { result ≡ settled first (boolean_plan counts) }
    ensures bounded { Bounded result }
{
    Ok(Passed {
        row: Record {
            sort: 0,
            width: 1,
            denominator: 1,
            first,
            slots: counts.slots,
        },
        counts,
    })
}

// A number, within the limits of 8 and 9.
#[tactic(auto, unfolding(crate::specs::Parts::settled))]
pub fn number(first: u32, width: u32, denominator: u32, counts: Counts) -> Result<Passed, Reason>
    requires width_most { width ≤ 48 }
    requires denominator_denominator { Denominator denominator }
    requires below_counts { Below 170000 counts }
    ensures answer { result ≡ settled first (number_plan width denominator counts) }
    ensures bounded { Bounded result }
{
    Ok(Passed {
        row: Record {
            sort: 1,
            width,
            denominator,
            first,
            slots: counts.slots,
        },
        counts,
    })
}

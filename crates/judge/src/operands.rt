// The tests of refusals 6 and 7, on the rows that a row refers to.
ghost use Rattle.std.specs.Prelude.{◌≡◌};
ghost use Rattle.sheet.specs.Rows.{uses};
ghost use Rattle.sheet.specs.Acceptance.{sorts_in, some_not_earlier, some_of_wrong_sort};

use sheet::{Kind, Record};

// Whether one of the rows that are named is not among the first `rows`; there are as many names as sorts asked for, or more.
pub fn some_not_earlier(rows: usize, sorts: &[u32], names: &[u16]) -> bool
    ensures { result ≡ some_not_earlier rows sorts.now names.now }
{
    sorts
        .iter()
        .zip(names)
        .any(|(_, x)| rows <= usize::from(*x))
}

// Whether one of their records is not of the sort that is asked for.
pub fn some_of_wrong_sort(sorts: &[u32], records: &[Record]) -> bool
    ensures { result ≡ some_of_wrong_sort sorts.now records.now }
{
    sorts
        .iter()
        .zip(records)
        .any(|(sort, record)| record.sort != *sort)
}

// The sorts that a kind asks of the rows x, y and z, as far as it refers to them: 0 a Boolean, 1 a number.
pub fn sorts_in(kind: Kind) -> &'static [u32]
    ensures { result.now ≡ sorts_in (uses kind) }
{
    match kind {
        Kind::BooleanConstant
        | Kind::BooleanUnknown
        | Kind::NaturalUnknown
        | Kind::IntegerUnknown
        | Kind::NumberConstant => &[],
        Kind::Not => &[0],
        Kind::And | Kind::Or | Kind::Implies | Kind::Iff => &[0, 0],
        Kind::Sum | Kind::Difference | Kind::Product | Kind::Greater | Kind::Equal => &[1, 1],
        Kind::Choice => &[0, 1, 1],
    }
}

// Refusal 5: constants, p and declared denominators out of range.
ghost use Rattle.std.specs.Prelude.{◌≡◌, ◌||◌};
ghost use Rattle.sheet.specs.Rows.{uses};
ghost use Rattle.sheet.specs.Acceptance as Acceptance;

use sheet::{Fields, Kind};

// Whether n is below the least or above the most.
fn outside(least: u16, most: u16, n: u16) -> bool
    ensures { result ≡ Acceptance.outside least most n }
{
    n < least || most < n
}

// Whether the p bits of an unknown number, at most so many, or its denominator z is out of range.
fn unknown_outside(most: u16, p: u8, z: u16) -> bool
    ensures { result ≡ (Acceptance.outside 1 most p || Acceptance.outside 1 4096 z) }
{
    outside(1, most, u16::from(p)) || outside(1, 4096, z)
}

// Whether one of a row's fields is; a row that refers to others has none to test here.
pub fn out_of_range(f: Fields) -> bool
    ensures { result ≡ Acceptance.out_of_range (uses f.kind) f.p f.x f.z }
{
    match f.kind {
        Kind::BooleanConstant => 1 < f.x,
        Kind::NaturalUnknown => unknown_outside(31, f.p, f.z),
        Kind::IntegerUnknown => unknown_outside(32, f.p, f.z),
        Kind::NumberConstant => outside(1, 4096, f.z),
        Kind::BooleanUnknown
        | Kind::Not
        | Kind::And
        | Kind::Or
        | Kind::Implies
        | Kind::Iff
        | Kind::Sum
        | Kind::Difference
        | Kind::Product
        | Kind::Choice
        | Kind::Greater
        | Kind::Equal => false,
    }
}

// A number's literals: brought to a width, negated, and those of a constant.
#![tactic(auto)]

ghost use Rattle.std.specs.Prelude.{◌≡◌, map, ◌≤◌};
ghost use Rattle.whole.specs.Bits.{extended, Fits};
ghost use Rattle.circuit.specs.Literals.{neg};
ghost use Rattle.circuit.specs.Numbers.{constant};

use frame::{Lit, Number};

// A missing high bit repeats the sign literal.
pub fn widen(x: &Number, width: usize) -> Number
    requires { width ≤ 48 }
    ensures { result ≡ extended width x.now }
{
    let mut wide = *x;
    if let Some(sign) = x.literals().last() {
        for _ in x.width()..width {
            wide.push(*sign);
        }
    }
    wide
}

// Each literal negated.
pub fn negate_all(x: &Number) -> Number
    ensures { result ≡ map neg x.now }
{
    let mut all = Number::empty();
    for literal in x.literals() {
        all.push(-*literal);
    }
    all
}

// A constant has the fewest bits that hold it.
pub fn constant(n: i64) -> Number
    requires { Fits 48 n }
    ensures { result ≡ constant n }
{
    let mut number = Number::empty();
    let mut rest = n;
    for _ in 0..numbers::bits(n) {
        number.push(Lit::known(rest % 2 != 0));
        rest >>= 1;
    }
    number
}

// Refusal 15: whether a value chosen for an unknown is within its declared bits.
#![tactic(auto)]

ghost use Rattle.std.specs.Prelude.{◌≡◌};
ghost use Rattle.sheet.specs.Rows.{uses};
ghost use Rattle.sheet.specs.Values.{in_bits};
ghost use Rattle.declared.specs.Declared.{Declared};

use sheet::Kind;

// Whether v is within the bits that a row of this kind and p declares; a row that is no unknown declares none.
pub fn in_bits(kind: Kind, p: u8, v: i64) -> bool
    requires { Declared (uses kind) p }
    ensures { result ≡ in_bits (uses kind) p v }
{
    match kind {
        Kind::BooleanUnknown => v == 0 || v == 1,
        Kind::NaturalUnknown => 0 <= v && v < 1 << p,
        Kind::IntegerUnknown => {
            let limit = 1 << (p - 1);
            -limit <= v && v < limit
        }
        _ => true,
    }
}

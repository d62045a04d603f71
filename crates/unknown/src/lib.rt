// The unknowns among a table's rows, and the values that they take in row order.
#![tactic(auto)]

ghost use Rattle.std.specs.Prelude.{◌≡◌, ◌+◌, ◌*◌, ◌≤◌, pos, length, get_or};
ghost use Rattle.sheet.specs.Rows.{uses, is_unknown};
ghost use Rattle.row.specs.RowAt.{row_at};
ghost use Rattle.unknown.specs.Unknowns.{reads_unknown};

use sheet::Kind;

// Whether a row of this kind takes a value.
pub fn is_unknown(kind: Kind) -> bool
    ensures { result ≡ is_unknown (uses kind) }
{
    matches!(
        kind,
        Kind::BooleanUnknown | Kind::NaturalUnknown | Kind::IntegerUnknown
    )
}

// Value i, and 0 if there is none.
pub fn value_at(values: &[i64], i: usize) -> i64
    ensures { result ≡ get_or values.now i (pos 0) }
{
    values.get(i).copied().unwrap_or(0)
}

// Whether row r of a table takes a value; one that is refused takes none.
pub fn is_unknown_at(table: &[u8], r: usize) -> bool
    requires { 8 * r + 8 ≤ length table.now }
    ensures { result ≡ reads_unknown (row_at table.now r) }
{
    match row::read_at(table, r) {
        Ok(f) => is_unknown(f.kind),
        Err(_) => false,
    }
}

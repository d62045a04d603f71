// The row reader: eight bytes from the middle of a table, answered by their fields or by refusal 3 or 4.
#![tactic(auto)]

ghost use Rattle.std.specs.Prelude.{◌≡◌, ◌+◌, ◌*◌, ◌≤◌, length};
ghost use Rattle.sheet.specs.Rows as Rows;
ghost use Rattle.row.specs.RowAt.{row_at};

use sheet::{Fields, Kind, Reason};

// Whether all of these fields are zero.
fn all_zero(fields: &[u16]) -> bool
    ensures { result ≡ Rows.all_zero fields.now }
{
    fields.iter().all(|field| *field == 0)
}

// Whether the fields that the kind has no use for are zero.
fn unused_are_zero(f: Fields) -> bool
    ensures { result ≡ Rows.all_zero (Rows.unused (Rows.uses f.kind) f.p f.x f.y f.z) }
{
    let p = u16::from(f.p);
    match f.kind {
        Kind::BooleanConstant | Kind::Not => all_zero(&[p, f.y, f.z]),
        Kind::BooleanUnknown => all_zero(&[p, f.x, f.y, f.z]),
        Kind::NaturalUnknown | Kind::IntegerUnknown => all_zero(&[f.x, f.y]),
        Kind::NumberConstant | Kind::Choice => all_zero(&[p]),
        Kind::And
        | Kind::Or
        | Kind::Implies
        | Kind::Iff
        | Kind::Sum
        | Kind::Difference
        | Kind::Product
        | Kind::Greater
        | Kind::Equal => all_zero(&[p, f.z]),
    }
}

// The fields of a row of the kind, bytes 1 to 7; a word's more significant byte stands first.
fn fields(row: &[u8], kind: Kind) -> Fields
    requires { length row.now ≡ 8 }
    ensures { result ≡ Rows.fields row.now kind }
{
    Fields {
        kind,
        p: row[1],
        x: u16::from_be_bytes([row[2], row[3]]),
        y: u16::from_be_bytes([row[4], row[5]]),
        z: u16::from_be_bytes([row[6], row[7]]),
    }
}

// A row's eight bytes, handed on as a part of the table: its fields, refusal 3 or refusal 4.
#[tactic(auto, unfolding(sheet::specs::Rows::read_row))]
pub fn read_row(row: &[u8]) -> Result<Fields, Reason>
    requires { length row.now ≡ 8 }
    ensures { result ≡ Rows.read_row row.now }
{
    let kind = Kind::try_from(row[0])?;
    let f = fields(row, kind);
    if unused_are_zero(f) {
        Ok(f)
    } else {
        Err(Reason::UnusedField)
    }
}

// Row r of a table, by its part of the table's bytes.
pub fn read_at(table: &[u8], r: usize) -> Result<Fields, Reason>
    requires { 8 * r + 8 ≤ length table.now }
    ensures { result ≡ row_at table.now r }
{
    read_row(&table[8 * r..8 * r + 8])
}

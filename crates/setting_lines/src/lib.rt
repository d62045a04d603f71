// The settings of a table in print: row, numerator and denominator of each unknown, one line each, page by page into a lent buffer.
#![tactic(auto)]

ghost use Rattle.std.specs.Prelude.{◌≡◌, [], ◌≤◌, ◌<◌, ◌+◌, ◌*◌, length, get_or};
ghost use Rattle.print.specs.Put.{Put};
ghost use Rattle.print.specs.Pages.{page_from, paged};
ghost use Rattle.setting_lines.specs.Settings.{setting_line, table_pieces, unknowns_in};

use print::Page;
use sheet::Kind;

// A row's line from place `at` on: row, numerator, denominator.
pub fn put_setting_line(
    out: &mut [u8],
    at: usize,
    i: u64,
    numerator: i64,
    denominator: u64,
) -> usize
    requires { at + 64 ≤ length out.old }
    ensures { Put (setting_line i numerator denominator) at out.old out.new result }
{
    let first = print::put_number(out, at, i, b' ');
    let second = print::put_signed(out, first, numerator, b' ');
    print::put_number(out, second, denominator, b'\n')
}

// How many of a table's first rows are unknowns.
#[tactic(auto, using(crate::proofs::Rows::unknowns_none, crate::proofs::Rows::unknowns_more, crate::proofs::Rows::unknowns_few, crate::proofs::Rows::truth_bit))]
fn unknowns_before(table: &[u8], rows: usize) -> usize
    requires { 8 * rows ≤ length table.now }
    ensures { result ≡ unknowns_in rows table.now }
{
    let mut n = 0;
    for row in 0..rows {
        n += usize::from(unknown::is_unknown_at(table, row));
    }
    n
}

// The piece of row i of a table, before which there are `used` unknowns: its line if it is an unknown, else nothing. A Boolean's
// denominator is 1.
fn put_setting(
    out: &mut [u8],
    at: usize,
    table: &[u8],
    numerators: &[i64],
    i: usize,
    used: usize,
) -> usize
    requires out_room { at + 64 ≤ length out.old }
    requires table_room { 8 * i + 8 ≤ length table.now }
    requires used_is { used ≡ unknowns_in i table.now }
    ensures { Put (get_or (table_pieces table.now numerators.now) i []) at out.old out.new result }
{
    let Ok(f) = row::read_at(table, i) else {
        return at;
    };
    let v = unknown::value_at(numerators, used);
    let row = i as u64;
    let z = u64::from(f.z);
    match f.kind {
        Kind::BooleanUnknown => put_setting_line(out, at, row, v, 1),
        Kind::NaturalUnknown | Kind::IntegerUnknown => put_setting_line(out, at, row, v, z),
        _ => at,
    }
}

// The settings of a table in pages, the first from row 0 on: the lines of the rows that are unknowns, with their numerators in row order.
pub fn settings_page(table: &[u8], numerators: &[i64], from: usize, out: &mut [u8]) -> Page
    ensures answer { result ≡ page_from from (table_pieces table.now numerators.now) (length out.old) }
    ensures out { out.new ≡ paged from (table_pieces table.now numerators.now) out.old }
{
    let rows = table.len() / 8;
    if from >= rows {
        return Page {
            next: from,
            size: 0,
        };
    }
    let mut used = unknowns_before(table, from);
    let mut size = 0;
    for row in from..rows {
        if out.len() - size < print::PIECE {
            return Page { next: row, size };
        }
        size = put_setting(out, size, table, numerators, row, used);
        used += usize::from(unknown::is_unknown_at(table, row));
    }
    Page { next: rows, size }
}

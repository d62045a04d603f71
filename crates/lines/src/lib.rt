// The reader of a table's lines, to the end of its text or to an empty line: it judges every line before it writes a row.
#![tactic(auto)]

ghost use Rattle.std.specs.Prelude.{◌≡◌, true, false, ◌≤◌, ◌+◌, ◌*◌, ◌%◌, length, ltb};
ghost use Rattle.frame.specs.Frame.{front};
ghost use Rattle.sheet.specs.Calls.{left};
ghost use Rattle.sheet.specs.Texts as Texts;
ghost use Rattle.sheet.specs.Texts.{begins_line, bytes_in, table_in, lines_from, read_lines};

use sheet::{LinesFound, Reason, Refusal};

// The most rows that a table may have.
const ROWS: usize = 256;

// The bytes that they take.
const ROOM: usize = 2048;

// What a hexadecimal digit stands for; 16 for any other byte. In two steps, which need no branch: that is quicker.
fn nibble(b: u8) -> u8
    ensures { result ≡ Texts.nibble b }
{
    let decimal = match b {
        b'0'..=b'9' => b - b'0',
        _ => 16,
    };
    match b {
        b'a'..=b'f' => b - b'a' + 10,
        _ => decimal,
    }
}

// Whether a byte is a hexadecimal digit. Without a branch, for the same reason.
fn is_digit(b: u8) -> bool
    ensures { result ≡ ltb (Texts.nibble b) 16 }
{
    (b'0' <= b) & (b <= b'9') | (b'a' <= b) & (b <= b'f')
}

// Whether the text begins with 16 digits and a line feed. All 16 bytes are looked at, for the same reason.
#[tactic(auto, using(crate::proofs::Laws::begins_short, crate::proofs::Laws::begins_last))]
fn begins_line(text: &[u8]) -> bool
    ensures { result ≡ begins_line 16 text.now }
{
    if text.len() < 17 {
        return false;
    }
    let mut good = true;
    for byte in &text[..16] {
        good &= is_digit(*byte);
    }
    good && text[16] == b'\n'
}

// Judges the lines and writes nothing; a table has room for 256.
fn judge(text: &[u8], blank: bool) -> Result<LinesFound, Refusal>
    ensures { result ≡ lines_from 256 blank 0 text.now }
{
    let mut rest = text;
    let mut rows = 0;
    while let Some(first) = rest.first() {
        if blank && *first == b'\n' {
            return Ok(LinesFound {
                rows: rows as u32,
                rest: 17 * rows + 1,
                ended: true,
            });
        }
        if rows >= ROWS {
            return Err(Reason::TooManyRows.at(0));
        }
        if !begins_line(rest) {
            return Err(Reason::BadLine.at(rows));
        }
        rest = &rest[17..];
        rows += 1;
    }
    Ok(LinesFound {
        rows: rows as u32,
        rest: text.len(),
        ended: false,
    })
}

// The byte of two digits.
fn pair(high: u8, low: u8) -> u8
    ensures { result ≡ Texts.nibble high % 16 * 16 + Texts.nibble low % 16 }
{
    nibble(high) % 16 * 16 + nibble(low) % 16
}

// A row's eight bytes, of the line that the text begins with.
fn put_row(row: &mut [u8], text: &[u8])
    requires row_is { length row.old ≡ 8 }
    requires text_room { 16 ≤ length text.now }
    ensures { row.new ≡ bytes_in 8 text.now }
{
    for (i, byte) in row.iter_mut().enumerate() {
        *byte = pair(text[2 * i], text[2 * i + 1]);
    }
}

// The bytes of so many lines, over the front of the table.
fn put_rows(table: &mut [u8], text: &[u8], rows: usize)
    requires table_room { 8 * rows ≤ length table.old }
    requires text_room { 17 * rows ≤ length text.now }
    ensures { table.new ≡ front (table_in rows text.now) table.old }
{
    for row in 0..rows {
        put_row(&mut table[8 * row..8 * row + 8], &text[17 * row..]);
    }
}

// The lines of the text as rows at the front of the table, to the end of the text or, where `blank` is true, to an empty line.
fn read(text: &[u8], table: &mut [u8], blank: bool) -> Result<LinesFound, Refusal>
    ensures answer { result ≡ read_lines blank text.now (length table.old) }
    ensures table { table.new ≡ left (read_lines blank text.now (length table.old)) (λ l. table_in l.rows text.now) table.old }
{
    if table.len() < ROOM {
        return Err(Reason::ShortBuffer.at(ROOM));
    }
    let found = judge(text, blank)?;
    put_rows(table, text, found.rows as usize);
    Ok(found)
}

// Reads to the end of the text.
pub fn read_lines(text: &[u8], table: &mut [u8]) -> Result<LinesFound, Refusal>
    ensures answer { result ≡ read_lines false text.now (length table.old) }
    ensures table { table.new ≡ left (read_lines false text.now (length table.old)) (λ l. table_in l.rows text.now) table.old }
{
    read(text, table, false)
}

// Reads to an empty line, even as line 256; without one, to the end of the text.
pub fn read_lines_until_empty(text: &[u8], table: &mut [u8]) -> Result<LinesFound, Refusal>
    ensures answer { result ≡ read_lines true text.now (length table.old) }
    ensures table { table.new ≡ left (read_lines true text.now (length table.old)) (λ l. table_in l.rows text.now) table.old }
{
    read(text, table, true)
}

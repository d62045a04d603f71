// Numbers, DIMACS text and lines of one piece in print, into lent buffers. A long text is printed page by page: a page takes pieces as
// long as 64 bytes are left for one, and the pages one after the other are the text (`DimacsPages` in specs/Pieces.antt).
#![tactic(auto)]

ghost use Rattle.std.specs.Prelude.{◌≡◌, [], ◌∷◌, ◌++◌, ◌≤◌, ◌+◌, length, get_or};
ghost use Rattle.sheet.specs.Acceptance.{refusal_number};
ghost use Rattle.sheet.specs.Texts.{ascii, decimal, signed, slot_text, refused_line};
ghost use Rattle.print.specs.Put.{Put};
ghost use Rattle.print.specs.Pages.{page_from, paged};
ghost use Rattle.print.specs.Pieces.{pair_line, dimacs_pieces};

use itoa::Buffer;
use sheet::Refusal;

// A page that was printed: the piece that the next page begins with, and how many bytes this one has.
#[derive(Clone, Copy)]
pub struct Page {
    pub next: usize,
    pub size: usize,
}

// The bytes that a page keeps for a piece; no piece is longer.
pub const PIECE: usize = 64;

// A text from place `at` on; where it ends.
fn put_text(out: &mut [u8], at: usize, text: &[u8]) -> usize
    requires { at + length text.now ≤ length out.old }
    ensures { Put text.now at out.old out.new result }
{
    let end = at + text.len();
    out[at..end].copy_from_slice(text);
    end
}

// n in decimal from place `at` on; where it ends.
#[tactic(auto, using(crate::proofs::Numerals::decimal_printed))]
pub fn put_decimal(out: &mut [u8], at: usize, n: u64) -> usize
    requires { at + length (decimal n) ≤ length out.old }
    ensures { Put (decimal n) at out.old out.new result }
{
    put_text(out, at, Buffer::new().format(n).as_bytes())
}

// n in decimal and the byte `mark` behind it, from place `at` on; where they end.
pub fn put_number(out: &mut [u8], at: usize, n: u64, mark: u8) -> usize
    requires { at + 21 ≤ length out.old }
    ensures { Put (decimal n ++ mark ∷ []) at out.old out.new result }
{
    let end = put_decimal(out, at, n);
    out[end] = mark;
    end + 1
}

// The same of a signed number: a minus or nothing stands in front.
pub fn put_signed(out: &mut [u8], at: usize, x: i64, mark: u8) -> usize
    requires { at + 22 ≤ length out.old }
    ensures { Put (signed x ++ mark ∷ []) at out.old out.new result }
{
    let end = put_text(out, at, Buffer::new().format(x).as_bytes());
    out[end] = mark;
    end + 1
}

// A slot's text from place `at` on: a line feed follows the 0 that ends a clause, a space any literal.
fn put_slot(out: &mut [u8], at: usize, x: i32) -> usize
    requires { at + 22 ≤ length out.old }
    ensures { Put (slot_text x) at out.old out.new result }
{
    let mark = if x == 0 { b'\n' } else { b' ' };
    put_signed(out, at, i64::from(x), mark)
}

// A line of a word and two numbers, from place `at` on; where it ends.
pub fn put_pair_line(out: &mut [u8], at: usize, word: &[u8], m: u64, n: u64) -> usize
    requires { at + length word.now + 42 ≤ length out.old }
    ensures { Put (pair_line word.now m n) at out.old out.new result }
{
    let first = put_text(out, at, word);
    let second = put_number(out, first, m, b' ');
    put_number(out, second, n, b'\n')
}

// Piece `next` of DIMACS text from place `at` on: the first line, or slot `next` - 1.
fn put_dimacs_piece(
    out: &mut [u8],
    at: usize,
    variables: u32,
    clauses: u32,
    slots: &[i32],
    next: usize,
) -> usize
    requires out_room { at + 64 ≤ length out.old }
    requires slots_room { next ≤ length slots.now }
    ensures { Put (get_or (dimacs_pieces variables clauses slots.now) next []) at out.old out.new result }
{
    if next == 0 {
        return put_pair_line(out, at, b"p cnf ", u64::from(variables), u64::from(clauses));
    }
    put_slot(out, at, slots[next - 1])
}

// DIMACS text in pages, the first from piece 0 on: as many pieces as out has room for.
pub fn dimacs_page(variables: u32, clauses: u32, slots: &[i32], from: usize, out: &mut [u8]) -> Page
    ensures answer { result ≡ page_from from (dimacs_pieces variables clauses slots.now) (length out.old) }
    ensures out { out.new ≡ paged from (dimacs_pieces variables clauses slots.now) out.old }
{
    let mut size = 0;
    for next in from..slots.len() + 1 {
        if out.len() - size < PIECE {
            return Page { next, size };
        }
        size = put_dimacs_piece(out, size, variables, clauses, slots, next);
    }
    Page {
        next: from.max(slots.len() + 1),
        size,
    }
}

// A line of at most 64 bytes at the front of out, if it has 64 bytes; how many bytes are printed.
fn line_page(line: &[u8], out: &mut [u8]) -> usize
    requires { length line.now ≤ 64 }
    ensures answer { result ≡ (page_from 0 (line.now ∷ []) (length out.old)).size }
    ensures out { out.new ≡ paged 0 (line.now ∷ []) out.old }
{
    if out.len() < PIECE {
        return 0;
    }
    put_text(out, 0, line)
}

// The line of a refusal's number and place at the front of out, if it has 64 bytes; how many bytes it has.
pub fn refused_line(number: u32, place: usize, out: &mut [u8]) -> usize
    ensures answer { result ≡ (page_from 0 (refused_line number place ∷ []) (length out.old)).size }
    ensures out { out.new ≡ paged 0 (refused_line number place ∷ []) out.old }
{
    let mut line = [0; PIECE];
    let end = put_pair_line(&mut line, 0, b"refused ", u64::from(number), place as u64);
    line_page(&line[..end], out)
}

// The same of a refusal.
pub fn refusal_line(refusal: Refusal, out: &mut [u8]) -> usize
    ensures answer { result ≡ (page_from 0 (refused_line (refusal_number refusal.reason) refusal.place ∷ []) (length out.old)).size }
    ensures out { out.new ≡ paged 0 (refused_line (refusal_number refusal.reason) refusal.place ∷ []) out.old }
{
    refused_line(refusal.reason.number(), refusal.place, out)
}

// The same of the line that says that no model is claimed.
pub fn none_claimed_line(out: &mut [u8]) -> usize
    ensures answer { result ≡ (page_from 0 (ascii "none claimed\n" ∷ []) (length out.old)).size }
    ensures out { out.new ≡ paged 0 (ascii "none claimed\n" ∷ []) out.old }
{
    line_page(b"none claimed\n", out)
}

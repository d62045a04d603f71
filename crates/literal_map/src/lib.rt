// The literal map, 48 places a row: a row's literals are loaded and stored. Its layout is known nowhere else.
#![tactic(auto)]

ghost use Rattle.std.specs.Prelude.{◌≡◌, ◌+◌, ◌*◌, ◌≤◌, pos, length, get_or, take, drop};
ghost use Rattle.sheet.specs.Steps.{page};
ghost use Rattle.frame.specs.Frame.{over};
ghost use Rattle.frame.specs.Literals.{literals, AllLit};
ghost use Rattle.literal_map.specs.Cells.{Held, Referred};

use frame::{Lit, Number};
use sheet::{Fields, MISSING, Record, References};

// A row that another refers to: its literals and its record.
#[derive(Clone, Copy)]
pub struct Operand {
    pub number: Number,
    pub record: Record,
}

// How many places the map of so many rows has.
pub fn places(rows: usize) -> usize
    requires { rows ≤ 256 }
    ensures { result ≡ 48 * rows }
{
    48 * rows
}

// The first literal of a row.
pub fn first(map: &[i32], row: usize) -> i32
    requires { 48 * row + 48 ≤ length map.now }
    ensures { result ≡ get_or map.now (48 * row) (pos 0) }
{
    map[48 * row]
}

// The first `width` literals of a row.
fn load(map: &[i32], row: usize, width: usize) -> Number
    requires narrow { width ≤ 48 }
    requires map_room { 48 * row + 48 ≤ length map.now }
    requires all_lit { AllLit width (drop (48 * row) map.now) }
    ensures { result ≡ literals (take width (drop (48 * row) map.now)) }
{
    let mut number = Number::empty();
    for slot in &map[48 * row..48 * row + width] {
        number.push(Lit::read(*slot));
    }
    number
}

// A row's 48 places: its literals, then zeros.
pub fn store(map: &mut [i32], row: usize, number: &Number)
    requires { 48 * row + 48 ≤ length map.old }
    ensures { map.new ≡ over (48 * row) (page number.now) map.old }
{
    let mut places = [0; 48];
    for (i, literal) in number.literals().iter().enumerate() {
        places[i] = literal.slot();
    }
    map[48 * row..48 * row + 48].copy_from_slice(&places);
}

// The row x as one after `rows` others may refer to it, `of` its record; a row that is not earlier is false.
fn refer(map: &[i32], rows: usize, x: u16, of: Record) -> Operand
    requires { Held map.now rows x of }
    ensures { Referred map.now rows x of result }
{
    let x = usize::from(x);
    if x < rows {
        let number = load(map, x, of.width as usize);
        return Operand { number, record: of };
    }
    let mut number = Number::empty();
    number.push(Lit::FALSITY);
    Operand {
        number,
        record: MISSING,
    }
}

// The rows that a row after `rows` others refers to, whose records are `of` as far as they are earlier.
pub fn refer_all(map: &[i32], rows: usize, f: Fields, of: References<Record>) -> References<Operand>
    requires held_x { Held map.now rows f.x of.x }
    requires held_y { Held map.now rows f.y of.y }
    requires held_z { Held map.now rows f.z of.z }
    ensures x { Referred map.now rows f.x of.x result.x }
    ensures y { Referred map.now rows f.y of.y result.y }
    ensures z { Referred map.now rows f.z of.z result.z }
{
    References {
        x: refer(map, rows, f.x, of.x),
        y: refer(map, rows, f.y, of.y),
        z: refer(map, rows, f.z, of.z),
    }
}

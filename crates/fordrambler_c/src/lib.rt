// The library for C: each call of the front door as an exported function, which answers the refusal's number, 0 on success. include/fordrambler.h
// declares them. A slice is two parameters of C, its pointer and its length. Each function's contract is one relation of specs/Told.antt; that
// no two outcomes meet it is stated in specs/Outcomes.antt, and proved.
#![tactic(auto)]

ghost use Rattle.std.specs.Prelude.{◌≡◌};
ghost use Rattle.sheet.specs.Calls.{number_of, place_of};
ghost use Rattle.fordrambler_c.specs.Told.{said_in, table_bytes, TellsCheck, TellsMeasure, TellsWrite, PlacesRow, TellsEvaluate, TellsExtend, TellsDecode, TellsLines, TellsLinesUntilEmpty, TellsClaim};

use sheet::{LinesFound, Record, Refusal};

// What C is told of an answer: the refusal's number, 0 on success, and what a success says.
#[derive(Clone, Copy)]
struct Told<T> {
    number: u32,
    said: Option<T>,
}

// The refusal's place, 0 on success, goes to a lent number.
fn tell<T>(answer: Result<T, Refusal>, place: &mut usize) -> Told<T>
    ensures number { result.number ≡ number_of answer }
    ensures place { place.new ≡ place_of answer }
    ensures said { result.said ≡ said_in answer }
{
    match answer {
        Ok(said) => {
            *place = 0;
            Told {
                number: 0,
                said: Some(said),
            }
        }
        Err(refusal) => {
            *place = refusal.place;
            Told {
                number: refusal.reason.number(),
                said: None,
            }
        }
    }
}

// The length of a table that was read, in bytes.
fn table_bytes(found: LinesFound) -> usize
    ensures { result ≡ table_bytes found }
{
    found.rows as usize * 8
}

#[unsafe(no_mangle)]
pub extern "C" fn fordrambler_check(table: &[u8], records: &mut [Record], place: &mut usize) -> u32
    ensures { TellsCheck table.now records.old result place.new records.new }
{
    tell(fordrambler::check(table, records), place).number
}

// The numbers are set on success only.
#[unsafe(no_mangle)]
pub extern "C" fn fordrambler_measure(
    table: &[u8],
    variables: &mut u32,
    clauses: &mut u32,
    slots: &mut u32,
    place: &mut usize,
) -> u32
    ensures { TellsMeasure table.now variables.old clauses.old slots.old result place.new variables.new clauses.new slots.new }
{
    let told = tell(fordrambler::measure(table), place);
    if let Some(counts) = told.said {
        *variables = counts.variables;
        *clauses = counts.clauses;
        *slots = counts.slots;
    }
    told.number
}

#[unsafe(no_mangle)]
pub extern "C" fn fordrambler_write(
    table: &[u8],
    records: &mut [Record],
    map: &mut [i32],
    slots: &mut [i32],
    place: &mut usize,
) -> u32
    ensures { TellsWrite table.now records.old map.old slots.old result place.new records.new map.new slots.new }
{
    tell(fordrambler::write(table, records, map, slots), place).number
}

// Which of the slots are the row's: the first one's place and their count are set on success only.
#[unsafe(no_mangle)]
pub extern "C" fn fordrambler_row_clauses(
    table: &[u8],
    slots: &[i32],
    row: u32,
    first: &mut usize,
    count: &mut usize,
    place: &mut usize,
) -> u32
    ensures { PlacesRow table.now slots.now row first.old count.old result place.new first.new count.new }
{
    let told = tell(row_clauses::find(table, slots.len(), row), place);
    if let Some(record) = told.said {
        *first = record.first as usize;
        *count = record.slots as usize;
    }
    told.number
}

#[unsafe(no_mangle)]
pub extern "C" fn fordrambler_evaluate(
    table: &[u8],
    values: &[i64],
    results: &mut [i64],
    place: &mut usize,
) -> u32
    ensures { TellsEvaluate table.now values.now results.old result place.new results.new }
{
    tell(fordrambler::evaluate(table, values, results), place).number
}

// The truth is set on success only: 1 if the constraint is true of the values, else 0.
#[unsafe(no_mangle)]
pub extern "C" fn fordrambler_extend(
    table: &[u8],
    values: &[i64],
    model: &mut [u8],
    truth: &mut u8,
    place: &mut usize,
) -> u32
    ensures { TellsExtend table.now values.now model.old truth.old result place.new model.new truth.new }
{
    let told = tell(fordrambler::extend(table, values, model), place);
    if let Some(constraint) = told.said {
        *truth = u8::from(constraint);
    }
    told.number
}

#[unsafe(no_mangle)]
pub extern "C" fn fordrambler_decode(
    table: &[u8],
    records: &mut [Record],
    map: &mut [i32],
    slots: &mut [i32],
    model: &[u8],
    values: &mut [i64],
    place: &mut usize,
) -> u32
    ensures { TellsDecode table.now records.old map.old slots.old model.now values.old result place.new records.new map.new slots.new values.new }
{
    tell(
        fordrambler::decode(table, records, map, slots, model, values),
        place,
    )
    .number
}

// The table's length in bytes is set on success only.
#[unsafe(no_mangle)]
pub extern "C" fn fordrambler_read_lines(
    text: &[u8],
    table: &mut [u8],
    table_read: &mut usize,
    place: &mut usize,
) -> u32
    ensures { TellsLines text.now table.old table_read.old result place.new table.new table_read.new }
{
    let told = tell(fordrambler::read_lines(text, table), place);
    if let Some(found) = told.said {
        *table_read = table_bytes(found);
    }
    told.number
}

// The same to an empty line: 1 and the offset behind it, if there is one, else 0 and the text's length.
#[unsafe(no_mangle)]
pub extern "C" fn fordrambler_read_lines_until_empty(
    text: &[u8],
    table: &mut [u8],
    table_read: &mut usize,
    rest: &mut usize,
    ended: &mut u8,
    place: &mut usize,
) -> u32
    ensures { TellsLinesUntilEmpty text.now table.old table_read.old rest.old ended.old result place.new table.new table_read.new rest.new ended.new }
{
    let told = tell(fordrambler::read_lines_until_empty(text, table), place);
    if let Some(found) = told.said {
        *table_read = table_bytes(found);
        *rest = found.rest;
        *ended = u8::from(found.ended);
    }
    told.number
}

// The claim is set on success only: 1 if the text claims a model, else 0.
#[unsafe(no_mangle)]
pub extern "C" fn fordrambler_read_claim(
    text: &[u8],
    variables: u32,
    model: &mut [u8],
    claim: &mut u8,
    place: &mut usize,
) -> u32
    ensures { TellsClaim text.now variables model.old claim.old result place.new model.new claim.new }
{
    let told = tell(fordrambler::read_claim(text, variables, model), place);
    if let Some(is_model) = told.said {
        *claim = u8::from(is_model);
    }
    told.number
}

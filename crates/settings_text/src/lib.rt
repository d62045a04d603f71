// The output of the settings program and of the values program as functions of their input: the settings of the table's unknowns that the
// solver's text tells, or every row's exact value at these; that none is claimed; or the line of a refusal.
#![tactic(auto)]

ghost use Rattle.std.specs.Prelude.{◌≡◌, ◌≤◌, length};
ghost use Rattle.frame.specs.Frame.{front};
ghost use Rattle.sheet.specs.Values.{row_values, Chosen};
ghost use Rattle.sheet.specs.Texts.{value_lines};
ghost use Rattle.sheet.specs.Programs.{reply, settings_program, values_program};
ghost use Rattle.table.specs.Accepted.{Accepted};
ghost use Rattle.settings_text.specs.Replies.{Taken, Told, told_by, told_text, claim_text};

use sheet::Reason;
use table::Sheet;

// Every row's exact value at values within their bits, over the front of out; how many bytes it has.
fn print_values(sheet: &Sheet, values: &[i64], out: &mut [u8]) -> usize
    requires accepted { Accepted sheet.now }
    requires chosen { Chosen sheet.now.rows values.now }
    requires out_room { 16448 ≤ length out.old }
    ensures answer { result ≡ length (value_lines (row_values sheet.now.rows values.now)) }
    ensures out { out.new ≡ front (value_lines (row_values sheet.now.rows values.now)) out.old }
{
    let mut results = [0i64; 256];
    evaluate::fill(sheet, values, &mut results);
    row_lines::value_lines(sheet.records(), &results[..sheet.rows().len()], out)
}

// What a model of the table's clauses tells, or the line of refusal 19, over the front of out; how many bytes it has. `all` says whether
// every row's value is told, or the settings alone.
fn print_model(table: &[u8], model: &[u8], all: bool, out: &mut [u8]) -> usize
    requires told { Told table.now model.now }
    requires out_room { 16448 ≤ length out.old }
    ensures answer { result ≡ length (told_text all table.now model.now) }
    ensures out { out.new ≡ front (told_text all table.now model.now) out.old }
{
    let mut map = [0i32; 12288];
    let mut slots = [0i32; 16384];
    let mut values = [0i64; 256];
    let tried = match decode::decode_core(table, 256, &mut map, &mut slots, model, &mut values) {
        Ok(tried) => tried,
        Err(refusal) => return print::refusal_line(refusal, out),
    };
    if let Some(clause) = tried.false_clause {
        return print::refusal_line(Reason::FalseClause.at(clause), out);
    }
    let settings = &values[..tried.sheet.counts().unknowns as usize];
    if all {
        print_values(&tried.sheet, settings, out)
    } else {
        setting_lines::settings_page(table, settings, 0, out).size
    }
}

// What the solver's text about so many variables of a table comes to.
fn print_claim(table: &[u8], variables: u32, rest: &[u8], all: bool, out: &mut [u8]) -> usize
    requires taken { Taken table.now variables }
    requires out_room { 16448 ≤ length out.old }
    ensures answer { result ≡ length (claim_text all table.now rest.now) }
    ensures out { out.new ≡ front (claim_text all table.now rest.now) out.old }
{
    let mut model = [0u8; 10000];
    match solver_text::read_claim(rest, variables, &mut model) {
        Ok(true) => print_model(table, &model[..variables as usize], all, out),
        Ok(false) => print::none_claimed_line(out),
        Err(wrong) => print::refusal_line(wrong, out),
    }
}

// What a table and the solver's text behind it come to: the table is judged before the solver's text is read.
fn print_answer(table: &[u8], rest: &[u8], all: bool, out: &mut [u8]) -> usize
    requires { 16448 ≤ length out.old }
    ensures answer { result ≡ length (claim_text all table.now rest.now) }
    ensures out { out.new ≡ front (claim_text all table.now rest.now) out.old }
{
    let mut sheet = Sheet::start();
    match write::read_fitting(&mut sheet, table, 256, 12288, 16384) {
        Ok(()) => print_claim(table, sheet.counts().variables, rest, all, out),
        Err(refusal) => print::refusal_line(refusal, out),
    }
}

// What a whole text comes to: lines, an empty line, the solver's text.
fn print_whole(text: &[u8], all: bool, out: &mut [u8]) -> usize
    requires { 16448 ≤ length out.old }
    ensures answer { result ≡ length (reply (told_by all) text.now) }
    ensures out { out.new ≡ front (reply (told_by all) text.now) out.old }
{
    let mut table = [0u8; 2048];
    match lines::read_lines_until_empty(text, &mut table) {
        Ok(found) => print_answer(
            &table[..8 * found.rows as usize],
            &text[found.rest..],
            all,
            out,
        ),
        Err(refusal) => print::refusal_line(refusal, out),
    }
}

// The settings program: what it writes to standard output stands at the front of out, of what was read from standard input; how
// many bytes it has. A setting is printed in at most 64 bytes.
#[tactic(auto, unfolding(sheet::specs::Programs::settings_program))]
pub fn settings_text(input: &[u8], out: &mut [u8]) -> usize
    requires { 16448 ≤ length out.old }
    ensures answer { result ≡ length (settings_program input.now) }
    ensures out { out.new ≡ front (settings_program input.now) out.old }
{
    print_whole(program::used(input), false, out)
}

// The same of the values program. A row's value is printed in at most 64 bytes too.
#[tactic(auto, unfolding(sheet::specs::Programs::values_program))]
pub fn values_text(input: &[u8], out: &mut [u8]) -> usize
    requires { 16448 ≤ length out.old }
    ensures answer { result ≡ length (values_program input.now) }
    ensures out { out.new ≡ front (values_program input.now) out.old }
{
    print_whole(program::used(input), true, out)
}

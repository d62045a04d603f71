// The reader of a solver's text: it judges the whole text before it writes the model. A text is right if it is the printed text of the
// model that its own signs tell.
#![tactic(auto)]

ghost use Rattle.std.specs.Prelude.{◌≡◌, true, ◌∷◌, [], ◌++◌, ◌<◌, length, drop};
ghost use Rattle.std.specs.Option.{option_copied};
ghost use Rattle.sheet.specs.Calls.{◌giving◌, left};
ghost use Rattle.sheet.specs.Texts.{decimal, variable_text, variable_texts, sign_at, signs_in, model_line, starts, claim_in, read_claim, is_model, model_bytes};
ghost use Rattle.solver_text.specs.Passing.{behind, alone};

use itoa::Buffer;
use sheet::{Reason, Refusal};

// What stands behind a part, if the text begins with it; likewise below.
#[tactic(auto, using(crate::proofs::Passing::stripped))]
fn pass_part<'a>(text: &'a [u8], part: &[u8]) -> Option<&'a [u8]>
    ensures { option_copied result ≡ behind part.now text.now }
{
    text.strip_prefix(part)
}

// Behind n in decimal and a space.
#[tactic(auto, using(crate::proofs::Passing::behind_then, print::proofs::Numerals::decimal_printed))]
fn pass_number(text: &[u8], n: u64) -> Option<&[u8]>
    ensures { option_copied result ≡ behind (decimal n ++ 32 ∷ []) text.now }
{
    let rest = pass_part(text, Buffer::new().format(n).as_bytes())?;
    pass_part(rest, b" ")
}

// Behind variable k with the sign that stands there, and a space.
#[tactic(auto, using(crate::proofs::Variables::variable_behind))]
fn pass_variable(text: &[u8], k: u64) -> Option<&[u8]>
    ensures { option_copied result ≡ behind (variable_text (sign_at text.now) k) text.now }
{
    pass_number(pass_part(text, b"-").unwrap_or(text), k)
}

// Behind every variable, the final 0 and the line feed.
#[tactic(auto, using(crate::proofs::Variables::line_goes, crate::proofs::Variables::line_stops))]
fn pass_variables(text: &[u8], variables: u32) -> Option<&[u8]>
    ensures { option_copied result ≡ behind (variable_texts (signs_in variables 1 text.now) 1) text.now }
{
    let mut rest = text;
    for k in 1..=variables {
        rest = pass_variable(rest, u64::from(k))?;
    }
    pass_part(rest, b"0\n")
}

// Behind the model's line.
#[tactic(auto, using(crate::proofs::Claims::line_behind, crate::proofs::Passing::behind_is))]
fn pass_model(text: &[u8], variables: u32) -> Option<&[u8]>
    ensures { option_copied result ≡ behind (model_line (signs_in variables 1 (drop 2 text.now))) text.now }
{
    pass_variables(pass_part(text, b"v ")?, variables)
}

// What is claimed, if nothing stands behind it; else 21 at this line.
fn alone(rest: &[u8], claimed: bool, line: usize) -> Result<bool, Refusal>
    ensures { result ≡ alone rest.now claimed line }
{
    if rest.is_empty() {
        Ok(claimed)
    } else {
        Err(Reason::BadClaim.at(line))
    }
}

// Judges the text and writes nothing: whether it claims a model.
#[tactic(auto, using(crate::proofs::Claims::none_there))]
fn judge(text: &[u8], variables: u32) -> Result<bool, Refusal>
    ensures { result ≡ (claim_in variables text.now giving is_model) }
{
    if let Some(rest) = pass_part(text, b"s UNSATISFIABLE\n") {
        return alone(rest, false, 1);
    }
    let line = pass_part(text, b"s SATISFIABLE\n").ok_or(Reason::BadClaim.at(0))?;
    let rest = pass_model(line, variables).ok_or(Reason::BadClaim.at(1))?;
    alone(rest, true, 2)
}

// The model byte that the sign in front of a text tells: 0 for a minus, else 1.
#[tactic(auto, using(crate::proofs::Variables::sign_tested))]
fn sign_at(text: &[u8]) -> u8
    ensures { result ≡ sign_at text.now }
{
    u8::from(!text.starts_with(b"-"))
}

// How many bytes variable k has with this sign and the space behind it.
#[tactic(auto, using(crate::proofs::Variables::length_variable, print::proofs::Numerals::decimal_printed))]
fn variable_length(sign: u8, k: u64) -> usize
    ensures { result ≡ length (variable_text sign k) }
{
    let minus = usize::from(sign == 0);
    minus + Buffer::new().format(k).len() + 1
}

// A byte for each variable, as the signs of a right line tell it.
fn put_model(model: &mut [u8], signs: &[u8])
    requires { starts (variable_texts (signs_in (length model.old) 1 signs.now) 1) signs.now ≡ true }
    ensures { model.new ≡ signs_in (length model.old) 1 signs.now }
{
    let mut rest = signs;
    for (i, byte) in model.iter_mut().enumerate() {
        let sign = sign_at(rest);
        *byte = sign;
        rest = &rest[variable_length(sign, i as u64 + 1)..];
    }
}

// Reads a solver's text about so many variables: a model's bytes, 0 or 1, go to the front of the model. True: a model is claimed.
pub fn read_claim(text: &[u8], variables: u32, model: &mut [u8]) -> Result<bool, Refusal>
    ensures answer { result ≡ (read_claim variables text.now (length model.old) giving is_model) }
    ensures model { model.new ≡ left (read_claim variables text.now (length model.old)) model_bytes model.old }
{
    let needed = variables as usize;
    if model.len() < needed {
        return Err(Reason::ShortBuffer.at(needed));
    }
    let claimed = judge(text, variables)?;
    if claimed {
        put_model(&mut model[..needed], &text[16..]);
    }
    Ok(claimed)
}

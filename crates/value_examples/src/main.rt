// Runs document 01's examples of values through the calls. Each table ends in a comparison, with the value that the document gives where
// there is one; operands are unknowns where they can be. Of the values chosen for them it shows every row's numerator and denominator,
// whether the constraint is true, and the settings that the extended model decodes to. The file stdout has what the document says.
#![tactic(auto)]

use sheet::{Reason, Record, Refusal};
use std::io;

fn write_refusal(rt: &impl Print, words: &[u8], refusal: Refusal) -> io::Result<()> {
    rt.write_all(words)?;
    rt.write_all(b" refused ")?;
    rt.print(refusal.reason.number())?;
    rt.write_all(b" ")?;
    rt.print(refusal.place)?;
    rt.write_all(b"\n")
}

// A number in decimal with the byte `mark` behind it, by way of a buffer.
fn write_by(rt: &impl Print, out: &mut [u8], n: i64, mark: u8) -> io::Result<()> {
    if out.len() < 22 {
        return Ok(());
    }
    let size = print::put_signed(out, 0, n, mark);
    if size <= out.len() {
        rt.write_all(&out[..size])?;
    }
    Ok(())
}

fn write_number(rt: &impl Print, n: i64, mark: u8) -> io::Result<()> {
    let mut out = [0; 32];
    write_by(rt, &mut out, n, mark)
}

// A denominator, likewise.
fn write_denominator(rt: &impl Print, d: u32, mark: u8) -> io::Result<()> {
    write_number(rt, d as i64, mark)
}

// A line feed stands behind the last number of a line, a space behind each before.
fn mark_of(last: bool) -> u8 {
    if last { 10 } else { 32 }
}

fn write_numbers(rt: &impl Print, words: &[u8], numbers: &[i64]) -> io::Result<()> {
    rt.write_all(words)?;
    for (i, n) in numbers.iter().enumerate() {
        write_number(rt, *n, mark_of(i + 1 == numbers.len()))?;
    }
    Ok(())
}

fn write_denominators(rt: &impl Print, records: &[Record]) -> io::Result<()> {
    rt.write_all(b"denominators ")?;
    for (r, record) in records.iter().enumerate() {
        write_denominator(rt, record.denominator, mark_of(r + 1 == records.len()))?;
    }
    Ok(())
}

// Every row's numerator and denominator at these values.
fn show_rows(rt: &impl Print, table: &[u8], values: &[i64]) -> io::Result<()> {
    let mut results = [7; 8];
    match evaluate::evaluate(table, values, &mut results) {
        Ok(()) => write_numbers(rt, b"numerators ", &results[..(table.len() / 8).min(8)])?,
        Err(refusal) => write_refusal(rt, b"evaluated", refusal)?,
    }
    match table::check_core(table, 256) {
        Ok(sheet) => write_denominators(rt, sheet.records()),
        Err(refusal) => write_refusal(rt, b"checked", refusal),
    }
}

// What a model decodes to.
fn show_settings(rt: &impl Print, table: &[u8], model: &[u8], unknowns: usize) -> io::Result<()> {
    let mut map = [7; 384];
    let mut slots = [7; 16384];
    let mut settings = [7; 2];
    match decode::decode_core(table, 256, &mut map, &mut slots, model, &mut settings) {
        Ok(tried) => match tried.false_clause {
            Some(clause) => write_refusal(rt, b"decoded", Reason::FalseClause.at(clause)),
            None => write_numbers(rt, b"settings ", &settings[..unknowns.min(2)]),
        },
        Err(refusal) => write_refusal(rt, b"decoded", refusal),
    }
}

// Whether the constraint is true of the values, and what their model decodes to.
fn show_model(rt: &impl Print, table: &[u8], values: &[i64], model: &mut [u8]) -> io::Result<()> {
    match extender::extend(table, values, model) {
        Ok(true) => rt.write_all(b"true\n")?,
        Ok(false) => rt.write_all(b"false\n")?,
        Err(refusal) => write_refusal(rt, b"extended", refusal)?,
    }
    show_settings(rt, table, model, values.len())
}

// A byte for each variable that measuring counts.
fn show(rt: &impl Print, name: &[u8], table: &[u8], values: &[i64]) -> io::Result<()> {
    rt.write_all(name)?;
    show_rows(rt, table, values)?;
    let Ok(counts) = table::measure(table) else {
        return Ok(());
    };
    let n = counts.variables as usize;
    let mut model = [7; 4096];
    if n <= 4096 {
        show_model(rt, table, values, &mut model[..n])?;
    }
    Ok(())
}

// Sums and a difference, brought to one denominator.
fn show_sums(rt: &impl Print) -> io::Result<()> {
    show(
        rt,
        b"3/2 + -1/4 is 5/4\n",
        b"\x03\x03\0\0\0\0\0\x02\x03\x01\0\0\0\0\0\x04\x20\0\0\0\0\x01\0\0\x04\0\0\0\0\x05\0\x04\x31\0\0\x02\0\x03\0\0",
        &[3, -1],
    )?;
    show(
        rt,
        b"((1/2 times 4/2) times 3/2) + 1/2 is 16/8\n",
        b"\x03\x02\0\0\0\0\0\x02\x04\0\0\0\0\x04\0\x02\x04\0\0\0\0\x03\0\x02\x22\0\0\0\0\x01\0\0\x22\0\0\x03\0\x02\0\0\x20\0\0\x04\0\0\0\0\x04\0\0\0\0\x10\0\x08\x31\0\0\x05\0\x06\0\0",
        &[1],
    )?;
    show(
        rt,
        b"0 - (-4) is 4\n",
        b"\x03\x01\0\0\0\0\0\x01\x03\x03\0\0\0\0\0\x01\x21\0\0\0\0\x01\0\0\x04\0\0\0\0\x04\0\x01\x31\0\0\x02\0\x03\0\0",
        &[0, -4],
    )?;
    Ok(())
}

// Products of the least numbers of their widths.
fn show_products(rt: &impl Print) -> io::Result<()> {
    show(
        rt,
        b"-8 times -8 is 64\n",
        b"\x03\x04\0\0\0\0\0\x01\x22\0\0\0\0\0\0\0\x04\0\0\0\0\x40\0\x01\x31\0\0\x01\0\x02\0\0",
        &[-8],
    )?;
    show(
        rt,
        b"1-bit integers, -1 times -1 is 1\n",
        b"\x03\x01\0\0\0\0\0\x01\x03\x01\0\0\0\0\0\x01\x22\0\0\0\0\x01\0\0\x04\0\0\0\0\x01\0\x01\x31\0\0\x02\0\x03\0\0",
        &[-1, -1],
    )?;
    Ok(())
}

// Comparisons of unknowns, one of them false: then the model makes the last clause false.
fn show_comparisons(rt: &impl Print) -> io::Result<()> {
    show(
        rt,
        b"1/2 is 2/4\n",
        b"\x03\x02\0\0\0\0\0\x02\x02\x02\0\0\0\0\0\x04\x31\0\0\0\0\x01\0\0",
        &[1, 2],
    )?;
    show(
        rt,
        b"1/2 is 3/4\n",
        b"\x03\x02\0\0\0\0\0\x02\x02\x02\0\0\0\0\0\x04\x31\0\0\0\0\x01\0\0",
        &[1, 3],
    )?;
    show(
        rt,
        b"a 2-bit natural above 2\n",
        b"\x02\x02\0\0\0\0\0\x01\x04\0\0\0\0\x02\0\x01\x30\0\0\0\0\x01\0\0",
        &[3],
    )?;
    Ok(())
}

fn main(rt: HostRuntime) -> io::Result<()> {
    show_sums(&rt)?;
    show_products(&rt)?;
    show_comparisons(&rt)
}

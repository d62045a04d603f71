// Runs the examples of document 01 that are run and not proved, as far as checking and measuring go. One line an example: its name,
// what checking answers (a row's width and denominator, or the refusal) and what measuring answers (variables, clauses and slots, or
// the refusal). The file stdout has what the document and its rules say.
#![tactic(auto)]

use std::io;
use table::Sheet;

fn write_pair(rt: &impl Print, words: &[u8], a: u32, b: usize) -> io::Result<()> {
    rt.write_all(words)?;
    rt.print(a)?;
    rt.write_all(b" ")?;
    rt.print(b)
}

// The record of a row where the records have room, or the refusal.
fn write_checked(rt: &impl Print, bytes: &[u8], room: usize, row: u8) -> io::Result<()> {
    let mut sheet = Sheet::start();
    match table::read_checked(&mut sheet, bytes, room) {
        Ok(()) => {
            if let Some(record) = sheet.records().get(usize::from(row)) {
                write_pair(
                    rt,
                    b": width and denominator ",
                    record.width,
                    record.denominator as usize,
                )?;
            }
            Ok(())
        }
        Err(refusal) => write_pair(rt, b": refused ", refusal.reason.number(), refusal.place),
    }
}

fn write_measured(rt: &impl Print, bytes: &[u8]) -> io::Result<()> {
    match table::measure(bytes) {
        Ok(counts) => {
            write_pair(rt, b"; counted ", counts.variables, counts.clauses as usize)?;
            rt.write_all(b" ")?;
            rt.print(counts.slots)
        }
        Err(refusal) => write_pair(rt, b"; refused ", refusal.reason.number(), refusal.place),
    }
}

fn show(rt: &impl Print, name: &[u8], bytes: &[u8], room: usize, row: u8) -> io::Result<()> {
    rt.write_all(name)?;
    write_checked(rt, bytes, room, row)?;
    write_measured(rt, bytes)?;
    rt.write_all(b"\n")
}

// Integer unknowns of one bit over two denominators, their product or sum, and a Boolean to end with.
fn show_denominators(rt: &impl Print) -> io::Result<()> {
    show(
        rt,
        b"denominators 64 and 64 multiplied",
        b"\x03\x01\0\0\0\0\0\x40\x03\x01\0\0\0\0\0\x40\x22\0\0\0\0\x01\0\0\0\0\0\0\0\0\0\0",
        256,
        2,
    )?;
    show(
        rt,
        b"denominators 64 and 65 multiplied",
        b"\x03\x01\0\0\0\0\0\x40\x03\x01\0\0\0\0\0\x41\x22\0\0\0\0\x01\0\0\0\0\0\0\0\0\0\0",
        256,
        2,
    )?;
    show(
        rt,
        b"denominators 4096 and 3 added",
        b"\x03\x01\0\0\0\0\x10\0\x03\x01\0\0\0\0\0\x03\x20\0\0\0\0\x01\0\0\0\0\0\0\0\0\0\0",
        256,
        2,
    )?;
    Ok(())
}

// Integer unknowns of two widths and their product; the sum of two such products.
fn show_widths(rt: &impl Print) -> io::Result<()> {
    show(
        rt,
        b"widths 24 and 24 multiplied",
        b"\x03\x18\0\0\0\0\0\x01\x03\x18\0\0\0\0\0\x01\x22\0\0\0\0\x01\0\0\0\0\0\0\0\0\0\0",
        256,
        2,
    )?;
    show(
        rt,
        b"widths 24 and 25 multiplied",
        b"\x03\x18\0\0\0\0\0\x01\x03\x19\0\0\0\0\0\x01\x22\0\0\0\0\x01\0\0\0\0\0\0\0\0\0\0",
        256,
        2,
    )?;
    show(
        rt,
        b"widths 47 and 47 added",
        b"\x03\x18\0\0\0\0\0\x01\x03\x17\0\0\0\0\0\x01\x22\0\0\0\0\x01\0\0\x22\0\0\0\0\x01\0\0\x20\0\0\x02\0\x03\0\0\0\0\0\0\0\0\0\0",
        256,
        4,
    )?;
    show(
        rt,
        b"widths 48 and 47 added",
        b"\x03\x18\0\0\0\0\0\x01\x03\x17\0\0\0\0\0\x01\x22\0\0\0\0\0\0\0\x22\0\0\0\0\x01\0\0\x20\0\0\x02\0\x03\0\0\0\0\0\0\0\0\0\0",
        256,
        4,
    )?;
    Ok(())
}

// Rows of zeros are Boolean constants.
fn show_rows(rt: &impl Print) -> io::Result<()> {
    let rows = [0u8; 2056];
    show(rt, b"256 rows", &rows[..2048], 256, 255)?;
    show(rt, b"256 rows, 255 records", &rows[..2048], 255, 255)?;
    show(rt, b"257 rows", &rows, 256, 255)?;
    show(rt, b"no bytes", &rows[..0], 256, 255)
}

fn main(rt: HostRuntime) -> io::Result<()> {
    show_denominators(&rt)?;
    show_widths(&rt)?;
    show_rows(&rt)
}

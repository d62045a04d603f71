// Runs the whole example of document 01 and its natural of two bits: the clauses written, the first places of each row in the literal map, and
// the last row's own clauses, a line ending behind each 0. The file stdout has what the document says; the clauses of the second example
// were worked out from the document's rules.
#![tactic(auto)]

use std::io;

fn write_refusal(rt: &impl Print, number: u32, place: usize) -> io::Result<()> {
    rt.write_all(b"refused ")?;
    rt.print(number)?;
    rt.write_all(b" ")?;
    rt.print(place)?;
    rt.write_all(b"\n")
}

// The pieces of a text from `from` on: the first is the line that has the counts.
fn write_page(
    rt: &impl Print,
    out: &mut [u8],
    variables: u32,
    clauses: u32,
    slots: &[i32],
    from: usize,
) -> io::Result<()> {
    let page = print::dimacs_page(variables, clauses, slots, from, out);
    let size = page.size;
    if size <= out.len() {
        rt.write_all(&out[..size])?;
    }
    Ok(())
}

fn write_text(
    rt: &impl Print,
    variables: u32,
    clauses: u32,
    slots: &[i32],
    from: usize,
) -> io::Result<()> {
    let mut out = [0; 4096];
    write_page(rt, &mut out, variables, clauses, slots, from)
}

// The clauses of the last row of three, as a part of the slots.
fn show_row(rt: &impl Print, bytes: &[u8], slots: &[i32]) -> io::Result<()> {
    let mut number = 0;
    let mut place = 0;
    let part = row_clauses::row_clauses(bytes, slots, 2, &mut number, &mut place);
    if number != 0 {
        return write_refusal(rt, number, place);
    }
    rt.write_all(b"its last row\n")?;
    write_text(rt, 0, 0, part, 1)
}

// A table of three rows whose clauses take all the slots that are lent.
fn show(rt: &impl Print, name: &[u8], bytes: &[u8], slots: &mut [i32]) -> io::Result<()> {
    rt.write_all(name)?;
    let mut map = [7; 144];
    let counts = match write::write_core(bytes, 3, &mut map, slots) {
        Ok(sheet) => sheet.counts(),
        Err(refusal) => return write_refusal(rt, refusal.reason.number(), refusal.place),
    };
    write_text(rt, counts.variables, counts.clauses, slots, 0)?;
    rt.write_all(b"its map\n")?;
    write_text(rt, 0, 0, &map[0..4], 1)?;
    write_text(rt, 0, 0, &map[48..52], 1)?;
    write_text(rt, 0, 0, &map[96..100], 1)?;
    show_row(rt, bytes, slots)
}

fn main(rt: HostRuntime) -> io::Result<()> {
    let mut few = [7; 13];
    let mut enough = [7; 14];
    let mut many = [7; 100];
    let whole = b"\x01\0\0\0\0\0\0\0\x10\0\0\0\0\0\0\0\x11\0\0\0\0\x01\0\0";
    let natural = b"\x02\x02\0\0\0\0\0\x01\x04\0\0\0\0\x02\0\x01\x30\0\0\0\0\x01\0\0";
    show(&rt, b"one slot too few\n", whole, &mut few)?;
    show(&rt, b"the whole example\n", whole, &mut enough)?;
    show(&rt, b"a natural of two bits above 2\n", natural, &mut many)
}

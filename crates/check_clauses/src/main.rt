// Runs the clause program's function on document 01's examples and on a text for each refusal that the program can give. For each its
// name, and in the lines behind it what the program writes. The file stdout has what the document and its rules say.
#![tactic(auto)]

use std::io;

fn show(rt: &impl Print, name: &[u8], text: &[u8]) -> io::Result<()> {
    let mut out = [0u8; 360576];
    let size = clause_text::clause_text(text, &mut out);
    rt.write_all(name)?;
    rt.write_all(b"\n")?;
    rt.write_all(&out[..size])
}

fn show_clauses(rt: &impl Print) -> io::Result<()> {
    show(
        rt,
        b"p, not p, both",
        b"0100000000000000\n1000000000000000\n1100000000010000\n",
    )?;
    show(
        rt,
        b"a 2-bit natural above 2",
        b"0202000000000001\n0400000000020001\n3000000000010000\n",
    )?;
    Ok(())
}

fn show_bad_lines(rt: &impl Print) -> io::Result<()> {
    show(rt, b"no text", b"")?;
    show(rt, b"an empty line", b"\n")?;
    show(rt, b"an empty line behind a row", b"0100000000000000\n\n")?;
    show(rt, b"no line feed", b"0100000000000000")?;
    show(
        rt,
        b"an upper-case digit",
        b"0100000000000000\n0A00000000000000\n",
    )?;
    Ok(())
}

fn show_bad_rows(rt: &impl Print) -> io::Result<()> {
    show(rt, b"an unknown kind", b"0500000000000000\n")?;
    show(rt, b"an unused field", b"0101000000000000\n")?;
    show(rt, b"a Boolean constant of 2", b"0000000200000000\n")?;
    show(
        rt,
        b"a reference to the row itself",
        b"0100000000000000\n1000000100000000\n",
    )?;
    Ok(())
}

fn show_bad_operands(rt: &impl Print) -> io::Result<()> {
    show(
        rt,
        b"not of a number",
        b"0202000000000001\n1000000000000000\n",
    )?;
    show(
        rt,
        b"denominators 64 and 65 multiplied",
        b"0301000000000040\n0301000000000041\n2200000000010000\n",
    )?;
    show(
        rt,
        b"widths 24 and 25 multiplied",
        b"0318000000000001\n0319000000000001\n2200000000010000\n",
    )?;
    Ok(())
}

fn show_bad_tables(rt: &impl Print) -> io::Result<()> {
    show(rt, b"a number at the end", b"0202000000000001\n")?;
    show(
        rt,
        b"a product of 48 bits, too many slots",
        b"0318000000000001\n0318000000000001\n2200000000010000\n3100000200020000\n",
    )?;
    Ok(())
}

// Lines of zeros: Boolean constants, all false.
fn show_many(rt: &impl Print) -> io::Result<()> {
    let mut text = [48u8; 4369];
    for line in text.chunks_exact_mut(17) {
        line[16] = 10;
    }
    show(rt, b"256 rows", text.split_at(4352).0)?;
    show(rt, b"257 rows", &text)
}

fn main(rt: HostRuntime) -> io::Result<()> {
    show_clauses(&rt)?;
    show_bad_lines(&rt)?;
    show_bad_rows(&rt)?;
    show_bad_operands(&rt)?;
    show_bad_tables(&rt)?;
    show_many(&rt)
}

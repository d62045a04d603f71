// Runs the settings program's function on document 01's examples and on a text for each refusal that the program can give. For each its
// name, and in the lines behind it what the program writes. The file stdout has what the document and its rules say.
#![tactic(auto)]

use std::io;

fn show(rt: &impl Print, name: &[u8], text: &[u8]) -> io::Result<()> {
    let mut out = [0u8; 16448];
    let size = settings_text::settings_text(text, &mut out);
    rt.write_all(name)?;
    rt.write_all(b"\n")?;
    rt.write_all(&out[..size])
}

fn show_settings(rt: &impl Print) -> io::Result<()> {
    show(
        rt,
        b"a 2-bit natural above 2",
        b"0202000000000001\n0400000000020001\n3000000000010000\n\ns SATISFIABLE\nv 1 2 3 4 5 -6 7 -8 9 0\n",
    )?;
    show(
        rt,
        b"fourths that are 2/4",
        b"0202000000000004\n0400000000020004\n3100000000010000\n\ns SATISFIABLE\nv 1 -2 3 -4 5 -6 7 -8 9 0\n",
    )?;
    show(
        rt,
        b"a 3-bit integer that is -3",
        b"0303000000000001\n0400fffffffd0001\n3100000000010000\n\ns SATISFIABLE\nv 1 2 -3 4 -5 6 -7 8 -9 10 0\n",
    )?;
    show(
        rt,
        b"p, and a 2-bit natural above 2",
        b"0100000000000000\n0202000000000001\n0400000000020001\n3000000100020000\n1100000000030000\n\ns SATISFIABLE\nv 1 2 3 4 5 6 -7 8 -9 10 11 0\n",
    )?;
    show(
        rt,
        b"not p",
        b"0100000000000000\n1000000000000000\n\ns SATISFIABLE\nv 1 -2 0\n",
    )?;
    show(
        rt,
        b"no unknowns",
        b"0000000100000000\n\ns SATISFIABLE\nv 1 0\n",
    )?;
    show(
        rt,
        b"none claimed",
        b"0100000000000000\n\ns UNSATISFIABLE\n",
    )
}

fn show_false_clauses(rt: &impl Print) -> io::Result<()> {
    show(
        rt,
        b"2 is not above 2",
        b"0202000000000001\n0400000000020001\n3000000000010000\n\ns SATISFIABLE\nv 1 -2 3 -4 -5 -6 -7 -8 -9 0\n",
    )?;
    show(
        rt,
        b"one wrong bit",
        b"0202000000000001\n0400000000020001\n3000000000010000\n\ns SATISFIABLE\nv 1 2 3 4 -5 -6 7 -8 9 0\n",
    )?;
    show(
        rt,
        b"truth is false",
        b"0100000000000000\n\ns SATISFIABLE\nv -1 2 0\n",
    )?;
    Ok(())
}

fn show_bad_tables(rt: &impl Print) -> io::Result<()> {
    show(rt, b"no text", b"")?;
    show(rt, b"an empty line", b"\n")?;
    show(
        rt,
        b"an upper-case digit",
        b"0A00000000000000\n\ns UNSATISFIABLE\n",
    )?;
    show(rt, b"no empty line", b"0100000000000000\ns UNSATISFIABLE\n")?;
    show(
        rt,
        b"an unknown kind",
        b"0500000000000000\n\ns UNSATISFIABLE\n",
    )?;
    show(
        rt,
        b"a product of 48 bits, too many slots",
        b"0318000000000001\n0318000000000001\n2200000000010000\n3100000200020000\n\ns UNSATISFIABLE\n",
    )?;
    Ok(())
}

fn show_bad_claims(rt: &impl Print) -> io::Result<()> {
    show(
        rt,
        b"no solver's text and no empty line",
        b"0100000000000000\n",
    )?;
    show(rt, b"no solver's text", b"0100000000000000\n\n")?;
    show(rt, b"unknown", b"0100000000000000\n\ns UNKNOWN\n")?;
    show(
        rt,
        b"more than none",
        b"0100000000000000\n\ns UNSATISFIABLE\n\n",
    )?;
    show(rt, b"no model", b"0100000000000000\n\ns SATISFIABLE\n")?;
    show(
        rt,
        b"a variable left out",
        b"0100000000000000\n\ns SATISFIABLE\nv 1 0\n",
    )?;
    show(
        rt,
        b"a plus sign",
        b"0100000000000000\n\ns SATISFIABLE\nv 1 +2 0\n",
    )?;
    show(
        rt,
        b"a line behind the model",
        b"0100000000000000\n\ns SATISFIABLE\nv 1 2 0\n\n",
    )?;
    Ok(())
}

// Lines of zeros: Boolean constants, all false. An empty line may stand as line 256; any other line is refused there.
fn show_many(rt: &impl Print) -> io::Result<()> {
    let mut text = [48u8; 4369];
    for line in text.chunks_exact_mut(17) {
        line[16] = 10;
    }
    show(rt, b"257 rows", &text)?;
    text[4352] = 10;
    show(rt, b"256 rows and an empty line", text.split_at(4353).0)
}

fn main(rt: HostRuntime) -> io::Result<()> {
    show_settings(&rt)?;
    show_false_clauses(&rt)?;
    show_bad_tables(&rt)?;
    show_bad_claims(&rt)?;
    show_many(&rt)
}

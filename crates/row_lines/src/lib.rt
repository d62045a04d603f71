// A line for every row of a table, over the front of a lent buffer: its exact value, or its number of slots.
#![tactic(auto)]

ghost use Rattle.std.specs.Prelude.{◌≡◌, ◌≤◌, ◌*◌, length};
ghost use Rattle.frame.specs.Frame.{front};
ghost use Rattle.sheet.specs.Texts.{value_lines, cost_lines};
ghost use Rattle.row_lines.specs.Numbers.{over_records};

use sheet::Record;

// The rows' numerators, each over its record's denominator; how many bytes the lines have.
pub fn value_lines(records: &[Record], numerators: &[i64], out: &mut [u8]) -> usize
    requires { 64 * length (over_records records.now numerators.now) ≤ length out.old }
    ensures answer { result ≡ length (value_lines (over_records records.now numerators.now)) }
    ensures out { out.new ≡ front (value_lines (over_records records.now numerators.now)) out.old }
{
    let mut at = 0;
    for (i, (record, numerator)) in records.iter().zip(numerators).enumerate() {
        let denominator = u64::from(record.denominator);
        at = setting_lines::put_setting_line(out, at, i as u64, *numerator, denominator);
    }
    at
}

// How many slots each row takes; how many bytes the lines have.
pub fn cost_lines(records: &[Record], out: &mut [u8]) -> usize
    requires { 64 * length records.now ≤ length out.old }
    ensures answer { result ≡ length (cost_lines records.now) }
    ensures out { out.new ≡ front (cost_lines records.now) out.old }
{
    let mut at = 0;
    for (i, record) in records.iter().enumerate() {
        at = print::put_pair_line(out, at, b"", i as u64, u64::from(record.slots));
    }
    at
}

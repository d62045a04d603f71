// Numbers read from their literals under a model, in two's complement.
#![tactic(auto)]

ghost use Rattle.std.specs.Prelude.{◌≡◌, length, take};
ghost use Rattle.whole.specs.Bits.{to_int};
ghost use Rattle.sheet.specs.Values.{numerator};
ghost use Rattle.sheet.specs.Steps.{read_as};
ghost use Rattle.sheet.specs.Calls.{assigned};
ghost use Rattle.frame.specs.Literals.{literals};
ghost use Rattle.bits.specs.Readings.{values, Readable, Page};

use sheet::Record;

// The number that literals read as, lowest first: from the last, whose bit is the sign and counts negative, down.
pub fn read(literals: &[i32], model: &[u8]) -> i64
    requires { Readable (length model.now) literals.now }
    ensures { result ≡ to_int (values model.now literals.now) }
{
    let Some((sign, lower)) = literals.split_last() else {
        return 0;
    };
    let mut v = -i64::from(assign::is_true(model, *sign));
    for x in lower.iter().rev() {
        v = 2 * v + i64::from(assign::is_true(model, *x));
    }
    v
}

// The numerator that a row's literals read as: the first of its page, as many as its record's width.
pub fn setting(row: Record, page: &[i32], model: &[u8]) -> i64
    requires { Page (length model.now) row page.now }
    ensures { result ≡ numerator (read_as (assigned model.now) row (literals (take row.width page.now))) }
{
    if row.sort == 0 {
        return i64::from(assign::is_true(model, page[0]));
    }
    read(&page[..row.width as usize], model)
}

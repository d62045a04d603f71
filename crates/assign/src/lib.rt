// A model's bytes as an assignment: the value of a literal, and the first clause that the model makes false.
#![tactic(auto)]

ghost use Rattle.std.specs.Prelude.{◌≡◌, length};
ghost use Rattle.assign.specs.Model.{are_bits, value, LitOf, AllSlotOf};
ghost use Rattle.assign.specs.Clauses.{clauses_in, truths, first_false_from};

// The value of the literal x.
#[tactic(auto, using(crate::proofs::Bytes::read))]
pub fn is_true(model: &[u8], x: i32) -> bool
    requires { LitOf (length model.now) x }
    ensures { result ≡ value model.now x }
{
    let value = model[x.unsigned_abs() as usize - 1] == 1;
    if x < 0 { !value } else { value }
}

// The index of the first byte that is neither 0 nor 1, if there is one: refusal 17's place.
pub fn first_not_bit(model: &[u8]) -> Option<usize>
    ensures { result ≡ first_false_from 0 (are_bits model.now) }
{
    model.iter().position(|byte| *byte > 1)
}

// The number, from 1, of the first clause in the slots that the model makes false, if there is one.
#[tactic(auto, using(crate::proofs::Scanning::scans))]
pub fn first_false(slots: &[i32], model: &[u8]) -> Option<usize>
    requires { AllSlotOf (length model.now) slots.now }
    ensures { result ≡ first_false_from 1 (truths model.now (clauses_in slots.now)) }
{
    let mut number = 1;
    let mut met = false;
    for x in slots {
        if *x != 0 {
            met = met || is_true(model, *x);
        } else if met {
            number += 1;
            met = false;
        } else {
            return Some(number);
        }
    }
    None
}

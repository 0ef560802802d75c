// The answer of a check as the one number that the function for C gives: 0 for yes, the length of the sentence above a 0 for no, or the refusal.
#![tactic(auto)]

ghost use Rattle.std.specs.Prelude.{◌≡◌};
ghost use Rattle.checking.specs.Check.{check_outcome};
ghost use Rattle.packing.specs.Packed.{packed, Legible};

use answers::Refusal;
use packing::{pack, pack_refusal};

pub fn pack_check(answer: Result<Option<usize>, Refusal>) -> u64
    requires { Legible (check_outcome answer) }
    ensures { result ≡ packed (check_outcome answer) }
{
    match answer {
        Ok(None) => pack(0, 0),
        Ok(Some(n)) => pack(n, 0),
        Err(given) => pack_refusal(given),
    }
}

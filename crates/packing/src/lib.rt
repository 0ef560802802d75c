// An answer as the one number that a function for C gives (document 01, "host door").
#![tactic(auto)]

ghost use Rattle.std.specs.Prelude.{◌≡◌, ◌+◌, ◌*◌, ◌^◌, ◌<◌};
ghost use Rattle.answers.specs.Answer.{refusal, outcome_of};
ghost use Rattle.packing.specs.Packed.{packed, packed_byte, Legible, LegibleByte};

use answers::Refusal;

// A number above a refusal, 0 for none.
pub fn pack(upper: usize, number: u8) -> u64
    requires { upper < 2 ^ 56 }
    ensures { result ≡ upper * 256 + number }
{
    upper as u64 * 256 + number as u64
}

pub fn pack_refusal(given: Refusal) -> u64
    requires { Legible (refusal given) }
    ensures { result ≡ packed (refusal given) }
{
    match given {
        Refusal::AtRule(reason, rule) => pack(rule, reason.into()),
        Refusal::AtByte(reason, _) | Refusal::Bare(reason) => pack(0, reason.into()),
    }
}

// A refusal with the byte that it names.
pub fn pack_byte(given: Refusal) -> u64
    requires { LegibleByte (refusal given) }
    ensures { result ≡ packed_byte (refusal given) }
{
    match given {
        Refusal::AtByte(reason, byte) => pack(byte, reason.into()),
        Refusal::AtRule(reason, _) | Refusal::Bare(reason) => pack(0, reason.into()),
    }
}

// Of a call that answers how many tags changed or were put out, or how many numbers were written.
pub fn pack_answer(answer: Result<usize, Refusal>) -> u64
    requires { Legible (outcome_of answer) }
    ensures { result ≡ packed (outcome_of answer) }
{
    match answer {
        Ok(count) => pack(count, 0),
        Err(given) => pack_refusal(given),
    }
}

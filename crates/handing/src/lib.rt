// An open sentence as the three numbers that C has of it.
#![tactic(auto)]

ghost use Rattle.std.specs.Prelude.{◌≡◌};
ghost use Rattle.answers.specs.Answer.{outcome_of};
ghost use Rattle.packing.specs.Packed.{packed, Legible};
ghost use Rattle.handing.specs.Typing.{sentence_of, handed_on, opened_as, opened_on};

use answers::Refusal;
use packing::{pack_answer, pack_refusal};
use typing::{Sentence, Typed};

// The sentence that three numbers are.
pub fn sentence_of(state: u64, given: u64, closed: u64) -> Sentence
    ensures { result ≡ sentence_of (record { state = state; given = given; closed = closed }) }
{
    Sentence {
        state: state as usize,
        given: given as usize,
        closed: closed != 0,
    }
}

// The answer as a number, and the three numbers of the sentence that is handed back; on a refusal they stay.
pub fn hand_on(typed: Typed, state: &mut u64, given: &mut u64, closed: &mut u64) -> u64
    requires { Legible (outcome_of typed.answer) }
    ensures answer { result ≡ packed (outcome_of typed.answer) }
    ensures numbers { (record { state = state.exit.now; given = given.new; closed = closed.new }) ≡ handed_on (outcome_of typed.answer) typed.sentence (record { state = state.entry.now; given = given.old; closed = closed.old }) }
{
    if typed.answer.is_ok() {
        let sentence = typed.sentence;
        *state = sentence.state as u64;
        *given = sentence.given as u64;
        *closed = u64::from(sentence.closed);
    }
    pack_answer(typed.answer)
}

// Of opening: 0, and the three numbers of the sentence; on a refusal they stay.
pub fn hand_opened(
    opened: Result<Sentence, Refusal>,
    state: &mut u64,
    given: &mut u64,
    closed: &mut u64,
) -> u64
    requires { Legible (opened_as (outcome_of opened)) }
    ensures answer { result ≡ packed (opened_as (outcome_of opened)) }
    ensures numbers { (record { state = state.exit.now; given = given.new; closed = closed.new }) ≡ opened_on (outcome_of opened) (record { state = state.entry.now; given = given.old; closed = closed.old }) }
{
    match opened {
        Ok(sentence) => {
            let typed = Typed {
                sentence,
                answer: Ok(0),
            };
            hand_on(typed, state, given, closed)
        }
        Err(refusal) => pack_refusal(refusal),
    }
}

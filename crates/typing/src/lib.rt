// Typing with the sentence still open (document 02, W2): one tag at a time, over the bytes of a table. Each call reads the table, so that
// it knows whether it is well formed. Time O(b) for b bytes of a table; space is the table's index.
#![tactic(auto)]

ghost use Rattle.std.specs.Prelude.{◌≡◌, ℕ, ◌+◌, ◌*◌, ◌≤◌, ◌<◌, List, ◌++◌, length, drop, Err};
ghost use Rattle.limits.specs.Limits.{longest_sentence};
ghost use Rattle.answers.specs.Answer.{outcome_of, Filled};
ghost use Rattle.steps.specs.Entry.{count_of, place_of, EntryOf};
ghost use Rattle.transduction.specs.Parts.{CellRead};
ghost use Rattle.typing.specs.Typing.{opened, standing, admits, held, give, look, close, Hands};

use answers::{Reason, Refusal};
use limits::Limits;
use steps::{Size, count_of, next_state, place_of};
use transduction::{Found, find_entry, put, put_word, read_table};

// An open sentence, with any values: the state that its table is in, how many tags were given, and whether it is closed.
#[derive(Clone, Copy)]
pub struct Sentence {
    pub state: usize,
    pub given: usize,
    pub closed: bool,
}

// Of every call but opening: the sentence, and how many tags were put out.
#[derive(Clone, Copy)]
pub struct Typed {
    pub sentence: Sentence,
    pub answer: Result<usize, Refusal>,
}

// The word of a step to the front of `out`; where there is none, `out` may be empty.
fn put_step(table: &[u8], e: u64, out: &mut [u8])
    requires { ((count_of e ≡ 1 → ⊥) → place_of e + 2 * count_of e ≤ length table.now + 1) × (count_of e ≤ length out.old) }
    ensures { (base : ℕ) (w : List ℕ) → EntryOf table.now base w e → length w < 0xff → out.new ≡ w ++ drop (length w) out.old }
{
    if count_of(e) == 0 {
        return;
    }
    put(table, e, out, 0);
}

// A refused call hands the sentence back.
fn refuse(sentence: Sentence, given: Refusal) -> Typed
    ensures { result ≡ record { sentence = sentence; answer = Err given } }
{
    Typed {
        sentence,
        answer: Err(given),
    }
}

impl Sentence {
    // Opens a sentence over a table, or 17 or 12.
    pub fn open(table: &[u8], lim: Limits) -> Result<Sentence, Refusal>
        ensures { outcome_of result ≡ opened lim table.now }
    {
        read_table(table, lim)?;
        Ok(Sentence {
            state: 0,
            given: 0,
            closed: false,
        })
    }

    // 15 and 16 in that order: whether the sentence can go on over a table of so many states.
    fn stand(self, states: usize) -> Result<(), Refusal>
        ensures { outcome_of result ≡ standing self states }
    {
        if self.closed {
            return Err(Refusal::Bare(Reason::Closed));
        }
        if states <= self.state {
            return Err(Refusal::Bare(Reason::BadState));
        }
        Ok(())
    }

    // Then 13 and 4: whether it takes the tag.
    fn admit(self, size: Size, tag: u8) -> Result<(), Refusal>
        ensures { outcome_of result ≡ admits self size.tags size.states tag }
    {
        self.stand(size.states)?;
        if limits::SENTENCE <= self.given {
            return Err(Refusal::Bare(Reason::LongSentence));
        }
        if size.tags <= usize::from(tag) {
            return Err(Refusal::Bare(Reason::BadTag));
        }
        Ok(())
    }

    // The sentence with a tag more, in another state.
    fn advance(self, state: usize) -> Sentence
        requires { self.given < longest_sentence }
        ensures { result ≡ record { state = state; given = self.given + 1; closed = self.closed } }
    {
        Sentence {
            state,
            given: self.given + 1,
            ..self
        }
    }

    // Gives a tag, of which the table is read and the entry of its step is found.
    fn take(self, table: &[u8], found: Found, tag: u8, out: &mut [u8], lim: Limits) -> Typed
        requires { CellRead lim table.now self.state (1 + tag) found.size.tags found.size.states found.entry }
        ensures { Hands (give lim table.now self tag (length out.old)) out.old out.new result }
    {
        if let Err(given) = self.admit(found.size, tag) {
            return refuse(self, given);
        }
        let after = self.advance(next_state(found.entry, found.size.tags));
        let count = count_of(found.entry);
        if out.len() < count {
            return refuse(self, Refusal::Bare(Reason::ShortOutput));
        }
        put_step(table, found.entry, out);
        Typed {
            sentence: after,
            answer: Ok(count),
        }
    }

    // Gives a tag: the tags put out, or 17, 12, 15, 16, 13, 4 or 11 in that order.
    pub fn give(self, table: &[u8], tag: u8, out: &mut [u8], lim: Limits) -> Typed
        ensures { Hands (give lim table.now self tag (length out.old)) out.old out.new result }
    {
        match find_entry(table, self.state, 1 + usize::from(tag), lim) {
            Ok(found) => self.take(table, found, tag, out, lim),
            Err(given) => refuse(self, given),
        }
    }

    // The final word of the state to the front of `out`: its length, or 17, 12, 15, 16 or 11 in that order.
    fn put_held(self, table: &[u8], out: &mut [u8], lim: Limits) -> Result<usize, Refusal>
        ensures { Filled (held lim table.now self (length out.old)) out.old out.new result }
    {
        let found = find_entry(table, self.state, 0, lim)?;
        self.stand(found.size.states)?;
        let count = count_of(found.entry);
        if out.len() < count {
            return Err(Refusal::Bare(Reason::ShortOutput));
        }
        put_word(table, place_of(found.entry), count, out, 0);
        Ok(count)
    }

    // What closing now would put out; the sentence stays open.
    pub fn look(self, table: &[u8], out: &mut [u8], lim: Limits) -> Typed
        ensures { Hands (look lim table.now self (length out.old)) out.old out.new result }
    {
        let answer = self.put_held(table, out, lim);
        Typed {
            sentence: self,
            answer,
        }
    }

    // Closes the sentence: the held tags.
    pub fn close(self, table: &[u8], out: &mut [u8], lim: Limits) -> Typed
        ensures { Hands (close lim table.now self (length out.old)) out.old out.new result }
    {
        match self.put_held(table, out, lim) {
            Ok(held) => Typed {
                sentence: Sentence {
                    closed: true,
                    ..self
                },
                answer: Ok(held),
            },
            Err(given) => refuse(self, given),
        }
    }
}

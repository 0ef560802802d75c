// What public calls answer: a result or a refusal. specs/Answer.antt says which outcome of document 01 each case is.
#![tactic(auto)]

ghost use Rattle.std.specs.Prelude.{◌≡◌};
ghost use Rattle.answers.specs.Answer.{number_of};

// Why a call is refused, by the number that document 01 or 02 gives.
#[derive(Clone, Copy, Debug, PartialEq, Eq)]
pub enum Reason {
    BadCommand = 1,
    BadTagCount,
    BadPattern,
    BadTag,
    BadPlace,
    SameTag,
    TooManyRules,
    BadCeiling,
    ShortWork,
    TooManyStates,
    ShortOutput,
    BadTable,
    LongSentence,
    BadEnd,
    Closed,
    BadState,
    BadLimit,
    SmallSet,
    LateSet,
    OtherTags,
}

// The number of a refusal.
impl From<Reason> for u8 {
    ghost from_gives = { λ reason n. n ≡ number_of reason };

    fn from(reason: Reason) -> u8 {
        reason as u8
    }
}

// "a refusal that names the byte, the rule or nothing"
#[derive(Clone, Copy)]
pub enum Refusal {
    AtByte(Reason, usize),
    AtRule(Reason, usize),
    Bare(Reason),
}

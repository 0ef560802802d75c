// Books: definitions and laws in specs/ and proofs/, the arrays into which a book's rules are read, and what the reader's functions answer.
#![tactic(auto)]

ghost use Rattle.std.specs.Prelude.{◌≡◌, replicate};
ghost use Rattle.limits.specs.Limits.{most_rules, longest_pattern};
ghost use Rattle.books.specs.Arrays.{no_head};
ghost use Rattle.books.specs.declared.Unread.TheVariants.{Refused};

use answers::Refusal;
use limits::{PATTERN, RULES};

// A rule's place, its new tag, the command that opened it, and one more than the place of its last set.
#[derive(Clone, Copy)]
pub struct Head {
    pub place: u8,
    pub tag: u8,
    pub command: u8,
    pub sets: u8,
}

// The rules of a book as they are read: a pattern a row, 0 at a set, its length and its head beside. The rows of the sets stand apart, since few
// books have any.
#[derive(Clone, Copy)]
pub struct Rules {
    pub rows: [[u8; PATTERN]; RULES],
    pub lengths: [usize; RULES],
    pub heads: [Head; RULES],
}

impl Rules {
    // Arrays of zeros.
    pub fn new() -> Rules
        ensures { result ≡ record { rows = replicate most_rules (replicate longest_pattern 0); lengths = replicate most_rules 0; heads = replicate most_rules no_head } }
    {
        let head = Head {
            place: 0,
            tag: 0,
            command: 0,
            sets: 0,
        };
        Rules {
            rows: [[0; PATTERN]; RULES],
            lengths: [0; RULES],
            heads: [head; RULES],
        }
    }
}

// K and the number of rules of a book that is read, or is being read.
#[derive(Clone, Copy)]
pub struct Count {
    pub tags: u8,
    pub rules: usize,
}

// Why a book is not read into arrays: it is refused, or it has a set and they have no room for sets.
#[derive(Clone, Copy)]
pub enum Unread {
    Refused(Refusal),
    Sets,
}

impl From<Refusal> for Unread {
    ghost from_gives = { λ refusal unread. unread ≡ Refused refusal };

    fn from(refusal: Refusal) -> Unread {
        Unread::Refused(refusal)
    }
}

// K, the number of rules and whether one of them has a set.
#[derive(Clone, Copy)]
pub struct Book {
    pub tags: u8,
    pub rules: usize,
    pub sets: bool,
}

// A pattern of n tags, and where the commands after it begin.
#[derive(Clone, Copy)]
pub struct Tags {
    pub at: usize,
    pub n: usize,
}

// The same of a pattern of n places with sets, and one more than the place of its last set.
#[derive(Clone, Copy)]
pub struct Places {
    pub at: usize,
    pub n: usize,
    pub last: usize,
}

// A place of a pattern, with 0 for a set where it is a tag, and 0 for a tag where it is a set, and where the next command is.
#[derive(Clone, Copy)]
pub struct Place {
    pub tag: u8,
    pub set: u64,
    pub at: usize,
}

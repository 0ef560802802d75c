// The bounds of document 01, and the limits that a call is given (document 02, W8). specs/Limits.antt has them for definitions.
#![tactic(auto)]

ghost use Rattle.std.specs.Prelude.{◌≡◌};
ghost use Rattle.limits.specs.Limits.{limits_of, InRange, between, in_range, most_held};
ghost use Rattle.limits.specs.Work.{rule_states};

// The most tags in a sentence that is run.
pub const SENTENCE: usize = 65535;

// The end tag of a call that has none (document 02, W1).
pub const NO_END: u8 = 255;

// The most states of a table.
pub const STATES: usize = 256;

// The most tags in a pattern, the most rules in a book, and the most tags of a book or a table.
#[derive(Clone, Copy)]
pub struct Limits {
    pub pattern: usize,
    pub rules: usize,
    pub tags: usize,
}

// The limits of document 01.
pub const STANDARD: Limits = Limits {
    pattern: 6,
    rules: 16,
    tags: 48,
};

// The greatest of each.
pub const PATTERN: usize = 8;

pub const RULES: usize = 16;

pub const TAGS: usize = 48;

// The fewest tags of a book or a table.
pub const FEWEST_TAGS: usize = 2;

// The entries of a cell of the work slice that are there without a rule.
pub const LEAST_DEPTH: usize = 8;

fn between(least: usize, most: usize, n: usize) -> bool
    ensures { result ≡ between least most n }
{
    if n < least {
        return false;
    }
    n <= most
}

// Whether each limit is in its range.
pub fn in_range(lim: Limits) -> bool
    ensures { result ≡ in_range lim }
{
    if !between(1, PATTERN, lim.pattern) {
        return false;
    }
    if !between(1, RULES, lim.rules) {
        return false;
    }
    between(FEWEST_TAGS, TAGS, lim.tags)
}

// The most tags that a state of a table holds back.
pub fn most_held(lim: Limits) -> usize
    requires { InRange lim }
    ensures { result ≡ most_held lim }
{
    (lim.pattern - 1) * RULES
}

// The most states of a rule's transducer, in a book with a set or without.
pub fn rule_states(lim: Limits, sets: bool) -> usize
    requires { InRange lim }
    ensures { result ≡ rule_states lim sets }
{
    if sets {
        return (1 << (lim.pattern - 1)) + 1;
    }
    lim.pattern + 1
}

// The limits from a host's numbers.
pub fn limits_of(pattern: u64, rules: u64, tags: u64) -> Limits
    ensures { result ≡ limits_of pattern rules tags }
{
    Limits {
        pattern: pattern as usize,
        rules: rules as usize,
        tags: tags as usize,
    }
}

// Reading a book: its commands are told apart and followed one after the other, and their rules go to the caller's arrays.
#![tactic(auto)]

ghost use Rattle.std.specs.Prelude.{◌≡◌, ◌+◌, ◌≤◌, ◌<◌, [], length, get_or};
ghost use Rattle.limits.specs.Limits.{InRange, most_rules, most_tags};
ghost use Rattle.limits.specs.Within.{within};
ghost use Rattle.cascades.specs.Value.{rule_of, Formed};
ghost use Rattle.books.specs.Read.{read};
ghost use Rattle.cascades.specs.Rule.{some_has_set};
ghost use Rattle.books.specs.Arrays.{arrays, Shaped, sets_at, rule_at, rules_of};
ghost use Rattle.books.specs.Answer.{sizes, book_outcome};
ghost use Rattle.books.specs.Resume.{Resumes, Opens, PatternRead, Reads, Whole, read_commands};

use answers::{Reason, Refusal};
use books::{Book, Count, Rules, Unread};
use cascades::Rule;
use commands::{end_book, open_book, open_rule, read_places, read_tags, refused};
use limits::{Limits, PATTERN, RULES};

// The commands that open a rule.
const ONCE: u8 = 0x21;

const EVERYWHERE: u8 = 0x24;

// The command that puts a set into a pattern.
const SET: u8 = 0x23;

// The command at `at`, which is not 00, and 22 only where no rule is open. Where 23 goes on with a rule, the answer is `Sets`: there is no room for it.
fn read_rule(
    s: &[u8],
    at: usize,
    k: u8,
    m: usize,
    rules: &mut Rules,
    sets: &[[u64; PATTERN]],
    lim: Limits,
) -> Result<Count, Unread>
    requires shaped { Shaped (arrays rules.old sets.now) }
    requires m_le_most_rules { (m ≤ most_rules) × (at < length s.now) × (get_or s.now at 0 ≡ 0 → ⊥) × (get_or s.now at 0 ≡ 0x22 → m ≡ 0) × (get_or s.now at 0 ≡ 0x23 → (m ≡ 0 → ⊥) → length sets.now ≡ 0) }
    requires in_range { InRange lim }
    ensures resumes { Resumes lim s.now (read_commands lim s.now k m (arrays rules.old sets.now) at) (at + 1 + 1 + 1) (arrays rules.new sets.now) result }
    ensures opens { Opens k m (arrays rules.new sets.now) result }
{
    let command = s[at];
    if command == ONCE || command == EVERYWHERE {
        return open_rule(s, at, k, m, rules, sets, lim);
    }
    if m != 0 {
        if command == SET {
            return Err(Unread::Sets);
        }
    }
    refused(Reason::BadCommand, at)
}

// A rule's pattern, which may have sets, from the byte `from` on: where the commands after it begin.
fn read_pattern(
    s: &[u8],
    from: usize,
    k: u8,
    m: usize,
    rules: &mut Rules,
    sets: &mut [[u64; PATTERN]],
    lim: Limits,
) -> Result<usize, Refusal>
    requires shaped { Shaped (arrays rules.old sets.old) }
    requires from_in_bounds { (from ≤ length s.now) × (k ≤ most_tags) × (m < most_rules) × (get_or rules.old.lengths m 0 ≡ 0) × (sets_at (arrays rules.old sets.old) m ≡ 0) × (length sets.old ≡ 0 → ⊥) }
    requires in_range { InRange lim }
    ensures { PatternRead lim s.now from k (m + 1) (read_commands lim s.now k (m + 1) (arrays rules.old sets.old) from) (arrays rules.new sets.new) result }
{
    let places = read_places(s, from, k, &mut rules.rows[m], &mut sets[m], lim.pattern)?;
    rules.lengths[m] = places.n;
    rules.heads[m].sets = places.last as u8;
    Ok(places.at)
}

// The commands after 20 and K, where there is no room for sets.
fn read_plain(
    s: &[u8],
    k: u8,
    rules: &mut Rules,
    sets: &[[u64; PATTERN]],
    lim: Limits,
) -> Result<Count, Unread>
    requires shaped { Shaped (arrays rules.old sets.now) }
    requires in_bounds { (2 ≤ length s.now) × (length sets.now ≡ 0) }
    requires in_range { InRange lim }
    ensures { Reads (read_commands lim s.now k 0 (arrays rules.old sets.now) 2) (arrays rules.new sets.now) result }
{
    let mut m = 0;
    let mut at = 2;
    while at < s.len() {
        if s[at] == 0 {
            return end_book(s, at, k, m, rules, sets);
        }
        let count = read_rule(s, at, k, m, rules, sets, lim)?;
        let tags = read_tags(s, at + 3, k, &mut rules.rows[m], lim.pattern)?;
        rules.lengths[m] = tags.n;
        at = tags.at;
        m = count.rules;
    }
    refused(Reason::BadCommand, at)
}

// The commands after 20 and K, where there is. It is a loop of its own, so that the one above is as quick as if there were no sets.
fn read_commands(
    s: &[u8],
    k: u8,
    rules: &mut Rules,
    sets: &mut [[u64; PATTERN]],
    lim: Limits,
) -> Result<Count, Unread>
    requires shaped { Shaped (arrays rules.old sets.old) }
    requires in_bounds { (2 ≤ length s.now) × (k ≤ most_tags) × (length sets.old ≡ 0 → ⊥) }
    requires in_range { InRange lim }
    ensures { Reads (read_commands lim s.now k 0 (arrays rules.old sets.old) 2) (arrays rules.new sets.new) result }
{
    let mut m = 0;
    let mut at = 2;
    while at < s.len() {
        if s[at] == 0 {
            return end_book(s, at, k, m, rules, sets);
        }
        let count = read_rule(s, at, k, m, rules, sets, lim)?;
        at = read_pattern(s, at + 3, k, m, rules, sets, lim)?;
        m = count.rules;
    }
    refused(Reason::BadCommand, at)
}

// Reads a book into the caller's arrays, where there is no room for sets.
pub fn read_plain_into(
    s: &[u8],
    rules: &mut Rules,
    sets: &[[u64; PATTERN]],
    lim: Limits,
) -> Result<Count, Unread>
    requires shaped { Shaped (arrays rules.old sets.now) × (length sets.now ≡ 0) }
    requires in_range { InRange lim }
    ensures { Whole lim s.now (arrays rules.new sets.now) result }
{
    let count = open_book(s, lim)?;
    read_plain(s, count.tags, rules, sets, lim)
}

// The same where there is, with the sets beside.
pub fn read_sets_into(
    s: &[u8],
    rules: &mut Rules,
    sets: &mut [[u64; PATTERN]],
    lim: Limits,
) -> Result<Count, Unread>
    requires shaped { Shaped (arrays rules.old sets.old) × (length sets.old ≡ 0 → ⊥) }
    requires in_range { InRange lim }
    ensures { Whole lim s.now (arrays rules.new sets.new) result }
{
    let count = open_book(s, lim)?;
    read_commands(s, count.tags, rules, sets, lim)
}

// The same with either.
pub fn read_into(
    s: &[u8],
    rules: &mut Rules,
    sets: &mut [[u64; PATTERN]],
    lim: Limits,
) -> Result<Count, Unread>
    requires shaped { Shaped (arrays rules.old sets.old) }
    requires in_range { InRange lim }
    ensures { Whole lim s.now (arrays rules.new sets.new) result }
{
    if sets.len() == 0 {
        return read_plain_into(s, rules, sets, lim);
    }
    read_sets_into(s, rules, sets, lim)
}

// The rule i of those that are read.
pub fn rule_at(rules: &Rules, sets: &[[u64; PATTERN]], i: usize) -> Rule
    requires shaped { Shaped (arrays rules.now sets.now) }
    requires i_lt_most_rules { i < most_rules }
    ensures { (rule_of result (get_or sets.now i []) ≡ rule_at (arrays rules.now sets.now) i) × Formed result (get_or sets.now i []) }
{
    let head = rules.heads[i];
    Rule {
        everywhere: head.command == EVERYWHERE,
        row: rules.rows[i],
        length: rules.lengths[i],
        sets: usize::from(head.sets),
        place: usize::from(head.place),
        tag: head.tag,
    }
}

// Whether some of the first m rules has a set.
pub fn some_set(rules: &Rules, sets: &[[u64; PATTERN]], m: usize) -> bool
    requires shaped { Shaped (arrays rules.now sets.now) }
    requires m_le_most_rules { m ≤ most_rules }
    ensures { result ≡ some_has_set (rules_of (arrays rules.now sets.now) m) }
{
    for i in 0..m {
        if rules.heads[i].sets != 0 {
            return true;
        }
    }
    false
}

// Reads a book into arrays of its own, with room for sets.
fn read_with_sets(book: &[u8], lim: Limits) -> Result<Book, Refusal>
    requires { InRange lim }
    ensures { book_outcome result ≡ sizes (read lim book.now) }
{
    let mut rules = Rules::new();
    let mut sets = [[0u64; PATTERN]; RULES];
    match read_sets_into(book, &mut rules, &mut sets[..], lim) {
        Ok(count) => Ok(Book {
            tags: count.tags,
            rules: count.rules,
            sets: some_set(&rules, &sets[..], count.rules),
        }),
        Err(Unread::Refused(refusal)) => Err(refusal),
        Err(Unread::Sets) => unreachable!(),
    }
}

// Reads a book into arrays of its own, without room for sets, which few books have.
fn read_within(book: &[u8], lim: Limits) -> Result<Book, Refusal>
    requires { InRange lim }
    ensures { book_outcome result ≡ sizes (read lim book.now) }
{
    let mut rules = Rules::new();
    let none = [[0u64; PATTERN]; 0];
    match read_plain_into(book, &mut rules, &none[..], lim) {
        Ok(count) => Ok(Book {
            tags: count.tags,
            rules: count.rules,
            sets: false,
        }),
        Err(Unread::Refused(refusal)) => Err(refusal),
        Err(Unread::Sets) => read_with_sets(book, lim),
    }
}

// K, the number of rules and whether one of them has a set, or the refusal: 17, or the book's with its byte.
pub fn read_book(book: &[u8], lim: Limits) -> Result<Book, Refusal>
    ensures { book_outcome result ≡ within lim (sizes (read lim book.now)) }
{
    if limits::in_range(lim) {
        return read_within(book, lim);
    }
    Err(Refusal::Bare(Reason::BadLimit))
}

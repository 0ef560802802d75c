// The commands of a book, one function each: what it makes of the rules in the caller's arrays, and where the reading goes on.
#![tactic(auto)]

ghost use Rattle.std.specs.Prelude.{◌≡◌, true, false, ◌+◌, ◌≤◌, ◌<◌, length, get_or};
ghost use Rattle.answers.specs.Outcome.{Outcome, and_then};
ghost use Rattle.answers.specs.declared.Refusal.TheVariants.{AtByte};
ghost use Rattle.limits.specs.Limits.{InRange, most_rules, most_tags, longest_pattern};
ghost use Rattle.limits.specs.declared.Limits.{Limits};
ghost use Rattle.cascades.specs.Rule.{Kind};
ghost use Rattle.books.specs.declared.Unread.{Unread};
ghost use Rattle.books.specs.Book.{opener};
ghost use Rattle.books.specs.Read.{Stage, read, closing, set_read};
ghost use Rattle.books.specs.Arrays.{Arrays, arrays, Shaped, rules_down};
ghost use Rattle.books.specs.Resume.{Resumes, NoRule, Opens, TagsRead, PlaceRead, PlacesRead, read_commands, ReadAs, number_at, faulted};

use answers::{Reason, Refusal};
use books::{Count, Head, Place, Places, Rules, Tags, Unread};
use limits::{Limits, PATTERN};

// The refusal that names the byte, of a reading.
pub fn refused(reason: Reason, byte: usize) -> Result<Count, Unread>
    ensures { result ≡ Err (Unread.Refused (AtByte reason byte)) }
{
    Err(Unread::Refused(Refusal::AtByte(reason, byte)))
}

// Closes the last of m rules.
fn close(rules: &Rules, sets: &[[u64; PATTERN]], m: usize) -> Result<(), Reason>
    requires shaped { Shaped (arrays rules.now sets.now) }
    requires m_le_most_rules { m ≤ most_rules }
    ensures { closing (rules_down (arrays rules.now sets.now) m) ≡ faulted result }
{
    if m == 0 {
        return Ok(());
    }
    let last = m - 1;
    let n = rules.lengths[last];
    if n == 0 {
        return Err(Reason::BadPattern);
    }
    let head = rules.heads[last];
    let p = usize::from(head.place);
    if n <= p {
        return Err(Reason::BadPlace);
    }
    if p < usize::from(head.sets) {
        return Err(Reason::LateSet);
    }
    if rules.rows[last][p] == head.tag {
        return Err(Reason::SameTag);
    }
    Ok(())
}

// 20 and K.
pub fn open_book(s: &[u8], lim: Limits) -> Result<Count, Unread>
    requires { InRange lim }
    ensures resumes { (a : Arrays) → Shaped a → Resumes lim s.now (read lim s.now) 2 a result }
    ensures empty { NoRule result }
{
    if s.len() == 0 {
        return refused(Reason::BadCommand, 0);
    }
    if s[0] != 0x20 {
        return refused(Reason::BadCommand, 0);
    }
    if s.len() == 1 {
        return refused(Reason::BadCommand, 1);
    }
    let k = s[1];
    let n = usize::from(k);
    if n < limits::FEWEST_TAGS {
        return refused(Reason::BadTagCount, 1);
    }
    if lim.tags < n {
        return refused(Reason::BadTagCount, 1);
    }
    Ok(Count { tags: k, rules: 0 })
}

// 00 at `at`: closes the last rule and the book.
pub fn end_book(
    s: &[u8],
    at: usize,
    k: u8,
    m: usize,
    rules: &Rules,
    sets: &[[u64; PATTERN]],
) -> Result<Count, Unread>
    requires shaped { Shaped (arrays rules.now sets.now) }
    requires m_le_most_rules { (m ≤ most_rules) × (at < length s.now) × (get_or s.now at 0 ≡ 0) }
    ensures { (lim : Limits) → ReadAs result (arrays rules.now sets.now) (read_commands lim s.now k m (arrays rules.now sets.now) at) }
{
    if let Err(reason) = close(rules, sets, m) {
        return refused(reason, at);
    }
    let next = at + 1;
    if next < s.len() {
        return refused(Reason::BadCommand, next);
    }
    Ok(Count { tags: k, rules: m })
}

// 21 or 24 at `at`: closes the last rule and opens another, of the command's kind.
pub fn open_rule(
    s: &[u8],
    at: usize,
    k: u8,
    m: usize,
    rules: &mut Rules,
    sets: &[[u64; PATTERN]],
    lim: Limits,
) -> Result<Count, Unread>
    requires shaped { Shaped (arrays rules.old sets.now) }
    requires m_le_most_rules { (m ≤ most_rules) × (at < length s.now) × ((kind : Kind) × (get_or s.now at 0 ≡ opener kind)) }
    requires in_range { InRange lim }
    ensures resumes { Resumes lim s.now (read_commands lim s.now k m (arrays rules.old sets.now) at) (at + 1 + 1 + 1) (arrays rules.new sets.now) result }
    ensures opens { Opens k m (arrays rules.new sets.now) result }
    ensures rows { rules.new.rows ≡ rules.old.rows }
{
    if let Err(reason) = close(rules, sets, m) {
        return refused(reason, at);
    }
    if lim.rules <= m {
        return refused(Reason::TooManyRules, at);
    }
    let first = at + 1;
    if s.len() == first {
        return refused(Reason::BadCommand, first);
    }
    let second = first + 1;
    if s.len() == second {
        return refused(Reason::BadCommand, second);
    }
    let tag = s[second];
    if k <= tag {
        return refused(Reason::BadTag, second);
    }
    rules.lengths[m] = 0;
    rules.heads[m] = Head {
        place: s[first],
        tag,
        command: s[at],
        sets: 0,
    };
    Ok(Count {
        tags: k,
        rules: m + 1,
    })
}

// 22 at `from` and on: the tags of a pattern, into its row.
pub fn read_tags(
    s: &[u8],
    from: usize,
    k: u8,
    row: &mut [u8; PATTERN],
    most: usize,
) -> Result<Tags, Refusal>
    requires { (from ≤ length s.now) × (length row.old ≡ longest_pattern) × (most ≤ longest_pattern) }
    ensures { TagsRead s.now from k most row.new result }
{
    let mut at = from;
    let mut n = 0;
    while at < s.len() {
        if s[at] != 0x22 {
            return Ok(Tags { at, n });
        }
        if most <= n {
            return Err(Refusal::AtByte(Reason::BadPattern, at));
        }
        let byte = at + 1;
        if s.len() == byte {
            return Err(Refusal::AtByte(Reason::BadCommand, byte));
        }
        let tag = s[byte];
        if k <= tag {
            return Err(Refusal::AtByte(Reason::BadTag, byte));
        }
        row[n] = tag;
        n += 1;
        at += 2;
    }
    Ok(Tags { at, n })
}

// The bytes of a set.
const SET: usize = 6;

// The set that six bytes from `at` on give, high byte first.
fn read_set(s: &[u8], at: usize) -> u64
    requires { at + 6 ≤ length s.now }
    ensures { result ≡ number_at s.now at 6 }
{
    let mut set = 0u64;
    for i in 0..SET {
        set = set * 256 + set_byte(s, at, i);
    }
    set
}

// The byte i of a set.
fn set_byte(s: &[u8], at: usize, i: usize) -> u64
    requires { (at + 6 ≤ length s.now) × (i < 6) }
    ensures { (result ≡ get_or s.now (at + i) 0) × (result < 256) }
{
    wider(s[at + i])
}

fn wider(x: u8) -> u64
    ensures { (result ≡ x) × (result < 256) }
{
    x as u64
}

// Whether a set over k tags is none of the book's.
fn check_set(k: u8, set: u64) -> Result<(), Reason>
    requires { k ≤ most_tags }
    ensures { (next : Stage) → set_read k set next ≡ and_then (faulted result) (λ x. Outcome.result next) }
{
    if set >> k != 0 {
        return Err(Reason::BadTag);
    }
    if u64::count_ones(set) < 2 {
        return Err(Reason::SmallSet);
    }
    Ok(())
}

// The place of a pattern that 22 at `at` gives.
fn read_tag(s: &[u8], at: usize, k: u8) -> Result<Place, Refusal>
    requires { (at < length s.now) × (get_or s.now at 0 ≡ 0x22) }
    ensures { PlaceRead s.now at k result }
{
    let byte = at + 1;
    if s.len() == byte {
        return Err(Refusal::AtByte(Reason::BadCommand, byte));
    }
    let tag = s[byte];
    if k <= tag {
        return Err(Refusal::AtByte(Reason::BadTag, byte));
    }
    Ok(Place {
        tag,
        set: 0,
        at: byte + 1,
    })
}

// The place of a pattern that 22 or 23 at `at` gives.
fn read_place(s: &[u8], at: usize, k: u8) -> Result<Place, Refusal>
    requires { (at < length s.now) × (k ≤ most_tags) × ((get_or s.now at 0 ≡ 0x22 → ⊥) → get_or s.now at 0 ≡ 0x23) }
    ensures { PlaceRead s.now at k result }
{
    let first = at + 1;
    if s[at] == 0x22 {
        return read_tag(s, at, k);
    }
    if s.len() - at <= SET {
        return Err(Refusal::AtByte(Reason::BadCommand, s.len()));
    }
    let set = read_set(s, first);
    let end = at + SET;
    if let Err(reason) = check_set(k, set) {
        return Err(Refusal::AtByte(reason, end));
    }
    Ok(Place {
        tag: 0,
        set,
        at: end + 1,
    })
}

// One more than the place of the last set, when the place before n is the set, or a tag, with 0 for a set.
fn last_set(last: usize, n: usize, set: u64) -> usize
    ensures { (set ≡ 0 → result ≡ last) × ((set ≡ 0 → ⊥) → result ≡ n) }
{
    if set == 0 {
        return last;
    }
    n
}

// Neither 22 nor 23.
fn ends_pattern(command: u8) -> bool
    ensures { (result ≡ true → (command ≡ 0x22 → ⊥) × (command ≡ 0x23 → ⊥)) × (result ≡ false → (command ≡ 0x22 → ⊥) → command ≡ 0x23) }
{
    if command == 0x22 {
        return false;
    }
    if command == 0x23 {
        return false;
    }
    true
}

// 22 and 23 at `from` and on: the tags and sets of a pattern, into its rows.
pub fn read_places(
    s: &[u8],
    from: usize,
    k: u8,
    row: &mut [u8; PATTERN],
    sets: &mut [u64; PATTERN],
    most: usize,
) -> Result<Places, Refusal>
    requires { (from ≤ length s.now) × (length row.old ≡ longest_pattern) × (length sets.old ≡ longest_pattern) × (most ≤ longest_pattern) × (k ≤ most_tags) }
    ensures { PlacesRead s.now from k most row.new sets.new result }
{
    let mut at = from;
    let mut n = 0;
    let mut last = 0;
    while at < s.len() {
        if ends_pattern(s[at]) {
            return Ok(Places { at, n, last });
        }
        if n == most {
            return Err(Refusal::AtByte(Reason::BadPattern, at));
        }
        let place = read_place(s, at, k)?;
        row[n] = place.tag;
        sets[n] = place.set;
        n += 1;
        last = last_set(last, n, place.set);
        at = place.at;
    }
    Ok(Places { at, n, last })
}

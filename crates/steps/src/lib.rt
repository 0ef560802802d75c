// One step of a table: its bytes, and its entry in the index from which a table is run.
#![tactic(auto)]

ghost use Rattle.std.specs.Prelude.{◌≡◌, ℕ, ◌+◌, ◌*◌, ◌-◌, ◌/◌, ◌≤◌, ◌<◌, List, length, drop, get_or};
ghost use Rattle.limits.specs.Limits.{most_tags, most_states};
ghost use Rattle.tables.specs.Bytes.{number, step_bytes};
ghost use Rattle.tables.specs.Decode.{word, read_step};
ghost use Rattle.steps.specs.Entry.{tag_of, count_of, place_of, base_of, TagsAt, EntryOf, StepEntry};
ghost use Rattle.steps.specs.Part.{Asked, PartRead, SameBelow, SingleIf};

// A table's K and S.
#[derive(Clone, Copy)]
pub struct Size {
    pub tags: usize,
    pub states: usize,
}

// The number in two bytes, the higher first.
pub fn number_at(table: &[u8], at: usize) -> usize
    requires { at + 1 < length table.now }
    ensures { (result ≡ number (get_or table.now at 0) (get_or table.now (at + 1) 0)) × (result < 0x10000) }
{
    usize::from(table[at]) * 0x100 + usize::from(table[at + 1])
}

// Where the entries of a state's steps begin.
fn base_at(state: usize, k: usize) -> usize
    requires { (state < most_states) × (k ≤ most_tags) }
    ensures { (result ≡ state * (k + 1) + 1) × (result < 0x10000) }
{
    state * (k + 1) + 1
}

// After the longest front of the bytes from `from` that has the command with a tag below k, again and again.
pub fn word_end(table: &[u8], from: usize, command: u8, k: usize) -> usize
    requires { from ≤ length table.now }
    ensures { (result ≡ from + 2 * length (word command k (drop from table.now))) × (result ≤ length table.now) }
{
    let mut at = from;
    while 1 < table.len() - at && table[at] == command && usize::from(table[at + 1]) < k {
        at += 2;
    }
    at
}

// An entry of the index; the word is its tag or the place of its tags.
pub fn entry(base: usize, count: usize, word: usize) -> u64
    requires { (base < 0x10000) × (count ≤ 0xff) × (word < 0x1000000) }
    ensures { (base_of result ≡ base) × (count_of result ≡ count) × (place_of result ≡ word) }
{
    (word as u64) * 0x10000000000 + (count as u64) * 0x100000000 + base as u64
}

fn word_entry(table: &[u8], from: usize, end: usize, base: usize) -> u64
    requires { (from ≤ end) × (end ≤ length table.now) × (length table.now < 0xffffff) × (base < 0x10000) }
    ensures { (w : List ℕ) → end ≡ from + 2 * length w → TagsAt table.now (from + 1) w → EntryOf table.now base w result }
{
    let count = (end - from) / 2;
    if count == 1 {
        return entry(base, 1, usize::from(table[from + 1]));
    }
    entry(base, count.min(0xff), from + 1)
}

// A step with any word, or none where the bytes are not a step.
fn read_any_step(
    table: &[u8],
    at: usize,
    size: Size,
    index: &mut [u64],
    cell: usize,
) -> Option<usize>
    requires { Asked table.now at size.tags size.states × (cell < length index.old) }
    ensures read { PartRead (read_step size.tags size.states) step_bytes (StepEntry size.tags table.now index.new cell) table.now at result }
    ensures kept { SameBelow cell index.old index.new }
{
    if table.len() - at < 3 {
        return None;
    }
    if table[at] != 0x33 {
        return None;
    }
    let next = number_at(table, at + 1);
    if size.states <= next {
        return None;
    }
    let from = at + 3;
    let end = word_end(table, from, 0x34, size.tags);
    index[cell] = word_entry(table, from, end, base_at(next, size.tags));
    Some(end)
}

// Whether a step that puts out one tag stands there, with a byte after it.
fn is_single(table: &[u8], at: usize, size: Size) -> bool
    requires { at ≤ length table.now }
    ensures { SingleIf result table.now at size.tags size.states }
{
    table.len() - at > 5
        && table[at] == 0x33
        && table[at + 3] == 0x34
        && table[at + 5] != 0x34
        && number_at(table, at + 1) < size.states
        && usize::from(table[at + 4]) < size.tags
}

// A step, with its entry at `cell`: where it ends, or none where the bytes are not a step.
pub fn read_step(
    table: &[u8],
    at: usize,
    size: Size,
    index: &mut [u64],
    cell: usize,
) -> Option<usize>
    requires { Asked table.now at size.tags size.states × (cell < length index.old) }
    ensures read { PartRead (read_step size.tags size.states) step_bytes (StepEntry size.tags table.now index.new cell) table.now at result }
    ensures kept { SameBelow cell index.old index.new }
{
    if !is_single(table, at, size) {
        return read_any_step(table, at, size, index, cell);
    }
    let next = number_at(table, at + 1);
    index[cell] = entry(base_at(next, size.tags), 1, usize::from(table[at + 4]));
    Some(at + 5)
}

pub fn count_of(e: u64) -> usize
    ensures { (result ≡ count_of e) × (result < 0x100) }
{
    (e / 0x100000000 % 0x100) as usize
}

pub fn place_of(e: u64) -> usize
    ensures { result ≡ place_of e }
{
    (e / 0x10000000000) as usize
}

pub fn tag_of(e: u64) -> u8
    ensures { result ≡ tag_of e }
{
    (e / 0x10000000000 % 0x100) as u8
}

pub fn base_of(e: u64) -> usize
    ensures { result ≡ base_of e }
{
    (e % 0x100000000) as usize
}

// The state that a step leads to, from its entry.
pub fn next_state(e: u64, k: usize) -> usize
    requires { (1 ≤ base_of e) × (k ≤ most_tags) }
    ensures { result ≡ (base_of e - 1) / (k + 1) }
{
    (base_of(e) - 1) / (k + 1)
}

// The entry of the step on a tag, of the state whose steps' entries begin at the base.
pub fn entry_at(index: &[u64], base: usize, tag: u8) -> u64
    requires { base + tag < length index.now }
    ensures { result ≡ get_or index.now (base + tag) 0 }
{
    let row = &index[usize::from(tag)..];
    row[base]
}

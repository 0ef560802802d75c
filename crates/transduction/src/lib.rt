// The run of a table over a sentence, and the entry of one of its cells. Reading a table is running it over no tags.
#![tactic(auto)]

ghost use Rattle.std.specs.Prelude.{◌≡◌, ℕ, ◌+◌, ◌*◌, ◌≤◌, ◌<◌, List, ◌++◌, length, drop};
ghost use Rattle.std.proofs.Math.Seq.{paste};
ghost use Rattle.limits.specs.Limits.{most_tags, most_states};
ghost use Rattle.sentences.specs.Run.{Ran};
ghost use Rattle.tables.specs.Decode.{decode_within};
ghost use Rattle.tables.specs.Run.{table_run, size_of};
ghost use Rattle.decoder.specs.Answer.{table_outcome};
ghost use Rattle.steps.specs.Entry.{count_of, place_of, TagsAt, EntryOf};
ghost use Rattle.decoder.specs.Index.{Head, Loaded};
ghost use Rattle.transduction.specs.Parts.{WordPut, Runnable, made, Tells, FoundIn};

use answers::{Reason, Refusal};
use limits::Limits;
use steps::{Size, base_of, count_of, entry_at, place_of, tag_of};

// The tags from a place of the table, each second byte, to `out` from `at`.
pub fn put_word(table: &[u8], place: usize, count: usize, out: &mut [u8], at: usize)
    requires { (place + 2 * count ≤ length table.now + 1) × (at + count ≤ length out.old) }
    ensures { (w : List ℕ) → length w ≡ count → TagsAt table.now place w → out.new ≡ paste out.old at w count }
{
    for j in 0..count {
        out[at + j] = table[place + 2 * j];
    }
}

// The word of a step's entry to `out` from `at`. One tag is stored whether or not there is one: `out` goes on, and what comes later is stored over it.
pub fn put(table: &[u8], e: u64, out: &mut [u8], at: usize) -> usize
    requires { ((count_of e ≡ 1 → ⊥) → place_of e + 2 * count_of e ≤ length table.now + 1) × (at < length out.old) × (at + count_of e ≤ length out.old) }
    ensures { (base : ℕ) (w : List ℕ) → EntryOf table.now base w e → length w < 0xff → WordPut out.old out.new at w result }
{
    let count = count_of(e);
    out[at] = tag_of(e);
    if count < 2 {
        return at + count;
    }
    put_word(table, place_of(e), count, out, at);
    at + count
}

// The words put out from state 0, and the final word.
fn transduce(table: &[u8], index: &[u64], sentence: &[u8], out: &mut [u8], lim: Limits)
    requires { Runnable lim table.now index.now sentence.now out.old }
    ensures { out.new ≡ made (decode_within lim table.now) sentence.now ++ drop (length sentence.now) out.old }
{
    let mut base = 1;
    let mut at = 0;
    for tag in sentence {
        let e = entry_at(index, base, *tag);
        at = put(table, e, out, at);
        base = base_of(e);
    }
    let e = index[base - 1];
    put_word(table, place_of(e), count_of(e), out, at);
}

// The run of a table that is read.
fn run_loaded(
    table: &[u8],
    k: usize,
    index: &[u64],
    sentence: &[u8],
    out: &mut [u8],
    lim: Limits,
) -> Result<usize, Refusal>
    requires { Loaded lim table.now k index.now }
    ensures { Ran (table_run lim table.now sentence.now (length out.old)) sentence.now out.old out.new result }
{
    sentences::admit(sentence, k as u8, out.len())?;
    transduce(table, index, sentence, out, lim);
    Ok(sentences::count_changes(sentence, &out[..sentence.len()]))
}

// What a table tells while its index is there: how many tags its run over a sentence changed, and the entry of one cell.
#[derive(Clone, Copy)]
struct Told {
    changed: usize,
    entry: u64,
}

// Of a table whose head is read, with room for its index.
fn tell_within(
    table: &[u8],
    size: Size,
    cell: usize,
    sentence: &[u8],
    out: &mut [u8],
    index: &mut [u64],
    lim: Limits,
) -> Result<Told, Refusal>
    requires { Head lim table.now size.tags size.states × (cell < size.states * (size.tags + 1)) × (size.states * (size.tags + 1) ≤ length index.old) }
    ensures { Tells lim table.now size.tags cell sentence.now out.old out.new result }
{
    if !decoder::load(table, size, index, lim) {
        return Err(Refusal::Bare(Reason::BadTable));
    }
    let changed = run_loaded(table, size.tags, index, sentence, out, lim)?;
    Ok(Told {
        changed,
        entry: index[cell],
    })
}

// Of one whose index has at most N entries.
fn tell_in<const N: usize>(
    table: &[u8],
    size: Size,
    cell: usize,
    sentence: &[u8],
    out: &mut [u8],
    lim: Limits,
) -> Result<Told, Refusal>
    requires { Head lim table.now size.tags size.states × (cell < size.states * (size.tags + 1)) × (size.states * (size.tags + 1) ≤ N) × (N ≤ most_states * (most_tags + 1)) }
    ensures { Tells lim table.now size.tags cell sentence.now out.old out.new result }
{
    let mut index = [0u64; N];
    tell_within(table, size, cell, sentence, out, &mut index, lim)
}

// An index is cleared for each call: small tables have a small one.
const SMALL: usize = 192;

const MIDDLE: usize = 1024;

const BIG: usize = 4096;

// Of a table that needs more than the small index. The function calls itself in a branch that is never taken: so the compiler
// keeps it, and each larger index, in a frame of its own, and a small table needs little of the stack.
fn tell_beyond(
    table: &[u8],
    size: Size,
    cell: usize,
    sentence: &[u8],
    out: &mut [u8],
    lim: Limits,
) -> Result<Told, Refusal>
    requires { Head lim table.now size.tags size.states × (cell < size.states * (size.tags + 1)) }
    ensures { Tells lim table.now size.tags cell sentence.now out.old out.new result }
{
    if limits::TAGS < size.tags {
        return tell_beyond(table, size, cell, sentence, out, lim);
    }
    let n = decoder::entries(size);
    if n <= MIDDLE {
        return tell_in::<MIDDLE>(table, size, cell, sentence, out, lim);
    }
    if n <= BIG {
        return tell_in::<BIG>(table, size, cell, sentence, out, lim);
    }
    tell_in::<{ decoder::ENTRIES }>(table, size, cell, sentence, out, lim)
}

fn tell(
    table: &[u8],
    size: Size,
    cell: usize,
    sentence: &[u8],
    out: &mut [u8],
    lim: Limits,
) -> Result<Told, Refusal>
    requires { Head lim table.now size.tags size.states × (cell < size.states * (size.tags + 1)) }
    ensures { Tells lim table.now size.tags cell sentence.now out.old out.new result }
{
    if decoder::entries(size) <= SMALL {
        return tell_in::<SMALL>(table, size, cell, sentence, out, lim);
    }
    tell_beyond(table, size, cell, sentence, out, lim)
}

// Runs a table over a sentence: the number of changed tags, or 17, 12, 13, 4 or 11 in that order.
pub fn run_table(
    table: &[u8],
    sentence: &[u8],
    out: &mut [u8],
    lim: Limits,
) -> Result<usize, Refusal>
    ensures { Ran (table_run lim table.now sentence.now (length out.old)) sentence.now out.old out.new result }
{
    let size = decoder::read_head(table, lim)?;
    let told = tell(table, size, 0, sentence, out, lim)?;
    Ok(told.changed)
}

// A table's K and S, and the entry of a cell.
#[derive(Clone, Copy)]
pub struct Found {
    pub size: Size,
    pub entry: u64,
}

// The cell of a state's column: 0 is its final word, 1 + a its step on the tag a. The first cell where there is no such state or column.
fn cell_of(state: usize, column: usize, size: Size) -> usize
    requires { (1 ≤ size.states) × (size.states ≤ most_states) × (size.tags ≤ most_tags) }
    ensures { (state < size.states → column ≤ size.tags → result ≡ state * (size.tags + 1) + column) × (result < size.states * (size.tags + 1)) }
{
    if size.states <= state || size.tags < column {
        return 0;
    }
    state * (size.tags + 1) + column
}

// The entry of a state's column, of a table whose head is read. No sentence of no tags is refused.
fn find_read(
    table: &[u8],
    size: Size,
    state: usize,
    column: usize,
    lim: Limits,
) -> Result<Found, Refusal>
    requires { Head lim table.now size.tags size.states }
    ensures { FoundIn lim table.now state column result }
{
    let cell = cell_of(state, column, size);
    let told = tell(table, size, cell, &[], &mut [], lim)?;
    Ok(Found {
        size,
        entry: told.entry,
    })
}

// Reads a table and finds the entry of a state's column, or 17 or 12.
pub fn find_entry(table: &[u8], state: usize, column: usize, lim: Limits) -> Result<Found, Refusal>
    ensures { FoundIn lim table.now state column result }
{
    let size = decoder::read_head(table, lim)?;
    find_read(table, size, state, column, lim)
}

// Reads a table: its K and S, or 17 or 12.
pub fn read_table(table: &[u8], lim: Limits) -> Result<Size, Refusal>
    ensures { table_outcome result ≡ size_of lim table.now }
{
    let found = find_entry(table, 0, 0, lim)?;
    Ok(found.size)
}

// Loading a table: its numbers to the front of a slice. The table is read into an index, and its numbers are written from the index row by row,
// the tags of longer words behind the rows. Time O(b) for b bytes; space is the index.
#![tactic(auto)]

ghost use Rattle.std.specs.Prelude.{◌≡◌, ◌+◌, ◌*◌, ◌≤◌, length};
ghost use Rattle.limits.specs.Limits.{most_tags, most_states};
ghost use Rattle.decoder.specs.Index.{Head};
ghost use Rattle.loaded.specs.Run.{LoadRan};

use answers::{Reason, Refusal};
use entries::first_resting;
use limits::Limits;
use measuring::fits;
use rows::write_rows;
use steps::Size;

// Loads a table whose head is read, with room for its index.
fn load_within(
    table: &[u8],
    size: Size,
    loaded: &mut [u32],
    index: &mut [u64],
    lim: Limits,
) -> Result<usize, Refusal>
    requires { Head lim table.now size.tags size.states × (size.states * (size.tags + 1) ≤ length index.old) }
    ensures { LoadRan lim table.now loaded.old loaded.new result }
{
    if !decoder::load(table, size, index, lim) {
        return Err(Refusal::Bare(Reason::BadTable));
    }
    if !fits(index, size, table.len(), loaded.len()) {
        return Err(Refusal::Bare(Reason::ShortOutput));
    }
    let rested = first_resting(index, size);
    loaded[0] = size.tags as u32;
    Ok(write_rows(table, index, size, rested, loaded))
}

// An index is cleared for each call: small tables have a small one.
const SMALL: usize = 192;

const MIDDLE: usize = 1024;

const BIG: usize = 4096;

// Loads a table whose head is read, with an index of so many entries.
fn load_in<const N: usize>(
    table: &[u8],
    size: Size,
    loaded: &mut [u32],
    lim: Limits,
) -> Result<usize, Refusal>
    requires { Head lim table.now size.tags size.states × (size.states * (size.tags + 1) ≤ N) × (N ≤ most_states * (most_tags + 1)) }
    ensures { LoadRan lim table.now loaded.old loaded.new result }
{
    let mut index = [0u64; N];
    load_within(table, size, loaded, &mut index, lim)
}

// A table that needs more than the small index. The function calls itself in a branch that is never taken: so the compiler keeps it, and
// each larger index, in a frame of its own.
fn load_beyond(table: &[u8], size: Size, loaded: &mut [u32], lim: Limits) -> Result<usize, Refusal>
    requires { Head lim table.now size.tags size.states }
    ensures { LoadRan lim table.now loaded.old loaded.new result }
{
    if limits::TAGS < size.tags {
        return load_beyond(table, size, loaded, lim);
    }
    let n = decoder::entries(size);
    if n <= MIDDLE {
        return load_in::<MIDDLE>(table, size, loaded, lim);
    }
    if n <= BIG {
        return load_in::<BIG>(table, size, loaded, lim);
    }
    load_in::<{ decoder::ENTRIES }>(table, size, loaded, lim)
}

// A table whose head is read.
fn load_read(table: &[u8], size: Size, loaded: &mut [u32], lim: Limits) -> Result<usize, Refusal>
    requires { Head lim table.now size.tags size.states }
    ensures { LoadRan lim table.now loaded.old loaded.new result }
{
    if decoder::entries(size) <= SMALL {
        return load_in::<SMALL>(table, size, loaded, lim);
    }
    load_beyond(table, size, loaded, lim)
}

// Loads a table: how many numbers were written to the front of the slice, or 17, 12, or 11 if it is too short.
pub fn load_table(table: &[u8], loaded: &mut [u32], lim: Limits) -> Result<usize, Refusal>
    ensures { LoadRan lim table.now loaded.old loaded.new result }
{
    let size = decoder::read_head(table, lim)?;
    load_read(table, size, loaded, lim)
}

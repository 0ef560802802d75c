// Reading the bytes of a table. The states go to an index, from which a table is run.
#![tactic(auto)]

ghost use Rattle.std.specs.Prelude.{◌≡◌, ◌+◌, ◌*◌, ◌≤◌, length};
ghost use Rattle.limits.specs.Limits.{most_tags, most_states, InRange};
ghost use Rattle.decoder.specs.Index.{Head, HeadRead, RowsRead, LoadedIf};

use answers::{Reason, Refusal};
use indexing::read_rows;
use leveling::level_rows;
use limits::Limits;
use steps::{Size, count_of, number_at};

// The most entries of an index.
pub const ENTRIES: usize = limits::STATES * (limits::TAGS + 1);

// What is left when the states are read: the last byte, and what the states hold.
fn load_end(table: &[u8], end: usize, size: Size, index: &[u64], lim: Limits) -> bool
    requires { RowsRead lim table.now size.tags size.states index.now end }
    ensures { LoadedIf result lim table.now size.tags index.now }
{
    if table.len() - end != 1 || table[end] != 0 || count_of(index[0]) != 0 {
        return false;
    }
    level_rows(index, size)
}

// Reads the bytes after the head and fills the index: whether they are those of a valid table.
pub fn load(table: &[u8], size: Size, index: &mut [u64], lim: Limits) -> bool
    requires { Head lim table.now size.tags size.states × (size.states * (size.tags + 1) ≤ length index.old) }
    ensures { LoadedIf result lim table.now size.tags index.new }
{
    let Some(end) = read_rows(table, size, index, limits::most_held(lim)) else {
        return false;
    };
    load_end(table, end, size, index, lim)
}

// The head, with limits in their ranges. No valid table has as many bytes as are refused here.
fn read_ranged(table: &[u8], lim: Limits) -> Result<Size, Refusal>
    requires { InRange lim }
    ensures { HeadRead lim table.now result }
{
    if table.len() < 4 || 0xffffff <= table.len() || table[0] != 0x30 {
        return Err(Refusal::Bare(Reason::BadTable));
    }
    let tags = usize::from(table[1]);
    if tags < limits::FEWEST_TAGS || lim.tags < tags {
        return Err(Refusal::Bare(Reason::BadTable));
    }
    let states = number_at(table, 2);
    if states < 1 || limits::STATES < states {
        return Err(Refusal::Bare(Reason::BadTable));
    }
    Ok(Size { tags, states })
}

// The head, a table's first four bytes: 17 for limits out of range, then 12.
pub fn read_head(table: &[u8], lim: Limits) -> Result<Size, Refusal>
    ensures { HeadRead lim table.now result }
{
    if !limits::in_range(lim) {
        return Err(Refusal::Bare(Reason::BadLimit));
    }
    read_ranged(table, lim)
}

// The entries that a table needs.
pub fn entries(size: Size) -> usize
    requires { (size.tags ≤ most_tags) × (size.states ≤ most_states) }
    ensures { (result ≡ size.states * (size.tags + 1)) × (result ≤ most_states * (most_tags + 1)) }
{
    size.states * (size.tags + 1)
}

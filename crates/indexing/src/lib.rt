// The states of a table from its bytes to an index, row by row.
#![tactic(auto)]

ghost use Rattle.std.specs.Prelude.{◌+◌, ◌*◌, ◌≤◌, ◌<◌, length};
ghost use Rattle.tables.specs.Bytes.{joined, step_bytes, row_bytes};
ghost use Rattle.tables.specs.Decode.{many, read_step, read_row};
ghost use Rattle.steps.specs.Part.{Asked, PartRead, SameBelow};
ghost use Rattle.indexing.specs.Entries.{StepEntries, RowEntries, TableEntries};

use steps::{Size, entry, read_step, word_end};

// The steps of a state, one for each tag, with their entries from `first`.
fn read_steps(table: &[u8], at: usize, size: Size, index: &mut [u64], first: usize) -> Option<usize>
    requires { Asked table.now at size.tags size.states × (first + size.tags ≤ length index.old) }
    ensures read { PartRead (many (read_step size.tags size.states) step_bytes size.tags) (joined step_bytes) (StepEntries size.tags table.now index.new first) table.now at result }
    ensures kept { SameBelow first index.old index.new }
{
    let mut to = at;
    for a in 0..size.tags {
        to = read_step(table, to, size, index, first + a)?;
    }
    Some(to)
}

// A state that holds at most `most` tags, with its entries from `cell`.
fn read_row(
    table: &[u8],
    at: usize,
    size: Size,
    index: &mut [u64],
    cell: usize,
    most: usize,
) -> Option<usize>
    requires { Asked table.now at size.tags size.states × (cell + size.tags < length index.old) }
    ensures read { PartRead (read_row most size.tags size.states) row_bytes (RowEntries size.tags table.now index.new cell) table.now at result }
    ensures kept { SameBelow cell index.old index.new }
{
    if table.len() - at < 2 {
        return None;
    }
    if table[at] != 0x31 {
        return None;
    }
    let held = usize::from(table[at + 1]);
    if most < held {
        return None;
    }
    let from = at + 2;
    let end = word_end(table, from, 0x32, size.tags);
    if end != from + 2 * held {
        return None;
    }
    index[cell] = entry(0, held, from + 1);
    read_steps(table, end, size, index, cell + 1)
}

// The states after the head: where they end, or none where the bytes are not so many states.
pub fn read_rows(table: &[u8], size: Size, index: &mut [u64], most: usize) -> Option<usize>
    requires { Asked table.now 4 size.tags size.states × (size.states * (size.tags + 1) ≤ length index.old) }
    ensures { PartRead (many (read_row most size.tags size.states) row_bytes size.states) (joined row_bytes) (TableEntries size.tags size.states table.now index.new) table.now 4 result }
{
    let mut to = 4;
    for q in 0..size.states {
        to = read_row(table, to, size, index, q * (size.tags + 1), most)?;
    }
    Some(to)
}

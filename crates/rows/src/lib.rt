// The rows of a loaded table, from the table's index: the numbers of each state, and the tags of the longer words behind all rows.
// Time O(k s + w) for k tags, s states and w tags in the longer words.
#![tactic(auto)]

ghost use Rattle.std.specs.Prelude.{◌≡◌, ℕ, ◌+◌, ◌*◌, ◌≤◌, ◌<◌, length, set};
ghost use Rattle.std.proofs.lemmas.List.Edits.{sets};
ghost use Rattle.transducers.specs.Table.{Step};
ghost use Rattle.steps.specs.Entry.{count_of};
ghost use Rattle.loaded.specs.Numbers.{entry, behind, next_at};
ghost use Rattle.entries.specs.State.{Base};
ghost use Rattle.rows.specs.Parts.{StepIs, StepHere, StepsHere, StepsWritten, RowHere, RowWritten, Source, RowsWritten};

use entries::{behind_of, next_place, put_tags, single, word_number};
use steps::{Size, base_of, count_of, place_of, tag_of};

// A table with its index, and where the entries of its first resting state's steps begin.
#[derive(Clone, Copy)]
struct Indexed<'a> {
    table: &'a [u8],
    index: &'a [u64],
    size: Size,
    rested: usize,
}

// The numbers of a step, by its entry.
fn write_step(from: &Indexed, e: u64, place: usize, loaded: &mut [u32], p: usize)
    requires { StepHere from.now.table.now e × (place < 0x1000000) × (p + 1 < length loaded.old) × (3 < count_of e → place + count_of e ≤ length loaded.old) }
    ensures { (k rest : ℕ) (s : Step) → StepIs from.now.table.now k s e → Base k rest from.now.rested → loaded.new ≡ sets (set (set loaded.old p (next_at k rest s.next)) (p + 1) (entry place s.output)) place (behind s.output) }
{
    loaded[p] = next_place(base_of(e), from.rested);
    let count = count_of(e);
    if count == 1 {
        loaded[p + 1] = single(tag_of(e));
        return;
    }
    loaded[p + 1] = word_number(from.table, place_of(e), count, place);
    put_tags(from.table, place_of(e), count, loaded, place);
}

// The numbers of a state's steps, whose entries begin after `cell`; the longer words from a place on. Where these end.
fn write_steps(from: &Indexed, cell: usize, mut place: usize, loaded: &mut [u32], p: usize) -> usize
    requires { StepsHere from.now.table.now from.now.index.now from.now.size.tags cell place (length loaded.old) × (p + 2 * from.now.size.tags ≤ place) }
    ensures { (s : StepsHere from.now.table.now from.now.index.now from.now.size.tags cell place (length loaded.old)) → StepsWritten s.steps from.now.size.tags from.now.rested place loaded.old loaded.new p result }
{
    for a in 0..from.size.tags {
        let e = from.index[cell + 1 + a];
        write_step(from, e, place, loaded, p + 2 * a);
        place += behind_of(count_of(e));
    }
    place
}

// The numbers of a state, whose entries begin at `cell`.
fn write_row(from: &Indexed, cell: usize, place: usize, loaded: &mut [u32], p: usize) -> usize
    requires { RowHere from.now.table.now from.now.index.now from.now.size.tags cell place (length loaded.old) × (p + 2 * from.now.size.tags + 2 ≤ place) }
    ensures { (s : RowHere from.now.table.now from.now.index.now from.now.size.tags cell place (length loaded.old)) → RowWritten s.row from.now.size.tags from.now.rested place loaded.old loaded.new p result }
{
    let e = from.index[cell];
    let count = count_of(e);
    loaded[p] = word_number(from.table, place_of(e), count, place);
    loaded[p + 1] = 0;
    put_tags(from.table, place_of(e), count, loaded, place);
    write_steps(from, cell, place + behind_of(count), loaded, p + 2)
}

// The numbers of all states, and how many there are.
pub fn write_rows(
    table: &[u8],
    index: &[u64],
    size: Size,
    rested: usize,
    loaded: &mut [u32],
) -> usize
    requires { Source table.now index.now size.tags size.states (length loaded.old) }
    ensures { (x : Source table.now index.now size.tags size.states (length loaded.old)) → RowsWritten x.table size.tags size.states rested loaded.old loaded.new result }
{
    let from = Indexed {
        table,
        index,
        size,
        rested,
    };
    let mut place = 1 + size.states * (2 * size.tags + 2);
    for q in 0..size.states {
        let p = 1 + q * (2 * size.tags + 2);
        place = write_row(&from, q * (size.tags + 1), place, loaded, p);
    }
    place
}

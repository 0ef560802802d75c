// Numbering: the result's states are the classes reached from state 0, in the order of first reach.
// Time O(n k d) for n states, k tags and words of d tags; space is the rows of the result, and notes in n rows. By breadth-first search
// (Moore): a list that grows by the unseen next states of each of its members in turn.
#![tactic(auto)]

ghost use Rattle.std.specs.Prelude.{◌≡◌, ◌+◌, ◌≤◌, ◌<◌};
ghost use Rattle.transducers.specs.Table.{row, shape};
ghost use Rattle.transducers.specs.Number.{note_all, order};
ghost use Rattle.workspace.specs.Cells.{word, Sized, Inner, Written};
ghost use Rattle.workspace.specs.Holds.{Stepped, Stepping, Rowed, Filling};
ghost use Rattle.worklist.specs.Worklist.{listed, Worklist};
ghost use Rattle.number.specs.Order.{Classed, merged_at, Lists};
ghost use Rattle.number.specs.Numbering.{Ordered, numbered_at, Rowing, Numbered};

use workspace::{CLASS, FINAL, Grid, NEXT, OUTPUT, Part, append_word, clear, get, put};

// The class of the state that q goes to on a.
fn next_class(work: &[u16], part: Part, q: usize, a: usize) -> usize
    requires classed { Classed part.grid work.now part.base part.states }
    requires q_lt_n { (q < part.states) × (a < part.grid.tags) }
    ensures { (result ≡ (shape (merged_at part.grid work.now part.base part.states)).next q a) × (result < part.states) }
{
    let Part { grid, base, .. } = part;
    let next = get(work, grid, base + q, a, NEXT);
    get(work, grid, base + next, grid.tags, CLASS)
}

// The next states of q are appended to the list.
fn add_steps(work: &mut [u16], part: Part, len: usize, q: usize) -> usize
    requires classed { Classed part.grid work.old part.base part.states }
    requires worklist { Worklist part.grid work.old part.base part.states len }
    requires q_lt_n { q < part.states }
    ensures { Lists part.grid work.old work.new part.base part.states (note_all (row (merged_at part.grid work.old part.base part.states) q).steps (listed part.grid work.old part.base len)) result }
{
    let mut to = len;
    for a in 0..part.grid.tags {
        let s = next_class(work, part, q, a);
        to = worklist::enter(work, part.grid, part.base, part.states, to, s);
    }
    to
}

// The list from state 0 on: its length.
fn search(work: &mut [u16], part: Part) -> usize
    requires classed { Classed part.grid work.old part.base part.states }
    requires worklist { Worklist part.grid work.old part.base part.states 1 }
    ensures { Lists part.grid work.old work.new part.base part.states (order (merged_at part.grid work.old part.base part.states)) result }
{
    let mut len = 1;
    let mut i = 0;
    // Stays: the list grows while it is walked, and a range would fix its end before.
    while i < len {
        let q = worklist::member(work, part.grid, part.base, part.states, len, i);
        len = add_steps(work, part, len, q);
        i += 1;
    }
    len
}

// A cell's word, to the same cell of a row before.
fn copy_word(work: &mut [u16], g: Grid, r: usize, c: usize, s: usize, r2: usize)
    requires sized { Sized g work.old }
    requires inner { Inner g work.old r c s }
    requires r2_lt_r { r2 < r }
    ensures { Written g work.old work.new r2 c s (word g work.old r c s) }
{
    clear(work, g, r2, c, s);
    append_word(work, g, r, c, s, r2, c, s);
}

// The place of the state that the i-th one goes to on a.
fn next_place(
    work: &[u16],
    part: Part,
    count: usize,
    to: usize,
    i: usize,
    q: usize,
    a: usize,
) -> usize
    requires rowing { Rowing part.grid work.now part.base part.states count to i q }
    requires a_lt_tags { a < part.grid.tags }
    ensures { (result ≡ (numbered_at part.grid work.now part.base part.states).next i a) × (result < part.states) }
{
    let s = next_class(work, part, q, a);
    worklist::place_of(work, part.grid, part.base, part.states, count, s)
}

fn number_step(work: &mut [u16], part: Part, count: usize, to: usize, i: usize, q: usize, a: usize)
    requires rowing { Rowing part.grid work.old part.base part.states count to i q }
    requires a_lt_tags { a < part.grid.tags }
    ensures { Stepped part.grid work.old work.new (to + i) a ((numbered_at part.grid work.old part.base part.states).next i a) ((numbered_at part.grid work.old part.base part.states).output i a) }
{
    let next = next_place(work, part, count, to, i, q, a);
    copy_word(work, part.grid, part.base + q, a, OUTPUT, to + i);
    put(work, part.grid, to + i, a, NEXT, next);
}

fn number_steps(work: &mut [u16], part: Part, count: usize, to: usize, i: usize, q: usize)
    requires { Rowing part.grid work.old part.base part.states count to i q }
    ensures { Stepping part.grid work.old work.new (to + i) (numbered_at part.grid work.old part.base part.states) i part.grid.tags }
{
    for a in 0..part.grid.tags {
        number_step(work, part, count, to, i, q, a);
    }
}

fn number_row(work: &mut [u16], part: Part, count: usize, to: usize, i: usize, q: usize)
    requires { Rowing part.grid work.old part.base part.states count to i q }
    ensures { Rowed part.grid work.old work.new (to + i) (numbered_at part.grid work.old part.base part.states) i }
{
    number_steps(work, part, count, to, i, q);
    copy_word(
        work,
        part.grid,
        part.base + q,
        part.grid.tags,
        FINAL,
        to + i,
    );
}

fn number_rows(work: &mut [u16], part: Part, count: usize, to: usize)
    requires ordered { Ordered part.grid work.old part.base part.states count }
    requires count_bound { to + count ≤ part.base }
    ensures { Filling part.grid work.old work.new to count (numbered_at part.grid work.old part.base part.states) count }
{
    for i in 0..count {
        let q = worklist::member(work, part.grid, part.base, part.states, count, i);
        number_row(work, part, count, to, i, q);
    }
}

// The number of states; the numbered table goes to the rows from `to` if they are no more than the ceiling.
pub fn number(work: &mut [u16], part: Part, to: usize, ceiling: usize) -> usize
    requires classed { Classed part.grid work.old part.base part.states }
    requires ceiling_bound { to + ceiling ≤ part.base }
    ensures { Numbered part.grid work.old work.new part.base part.states to ceiling result }
{
    worklist::begin(work, part.grid, part.base, part.states);
    let count = search(work, part);
    if ceiling < count {
        return count;
    }
    number_rows(work, part, count, to);
    count
}

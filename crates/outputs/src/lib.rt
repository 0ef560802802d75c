// The words of a rule's transducer, written to the work slice as parts of the pattern: what is put out on a tag, and what is held at the end.
// Time O(w) for a word of w tags.
#![tactic(auto)]

ghost use Rattle.std.specs.Prelude.{◌+◌, ◌≤◌, ◌<◌, ◌++◌, length};
ghost use Rattle.workspace.specs.Entries.{OUTPUT, FINAL};
ghost use Rattle.workspace.specs.Cells.{at, word, Sized, Written};
ghost use Rattle.minimal.specs.Matcher.{held, said};
ghost use Rattle.outputs.specs.Words.{Room};

use workspace::{FINAL, Grid, OUTPUT, clear, push};

// These tags after the word at s.
fn push_all(work: &mut [u16], g: Grid, r: usize, c: usize, s: usize, tags: &[u8])
    requires sized { Sized g work.old }
    requires r_lt_rows { (r < g.rows) × (c < g.tags + 1) × (s + at g work.old r c s + length tags.now < g.depth) }
    ensures { Written g work.old work.new r c s (word g work.old r c s ++ tags.now) }
{
    for tag in tags {
        push(work, g, r, c, s, usize::from(*tag));
    }
}

// What is put out where the first j tags were matched, a comes, and then the first `next` are.
pub fn write_output(
    work: &mut [u16],
    g: Grid,
    r: usize,
    u: &[u8],
    place: usize,
    tag: u8,
    j: usize,
    a: usize,
    next: usize,
)
    requires room { Room g work.old u.now place }
    requires r_lt_rows { (r < g.rows) × (a < g.tags) }
    requires j_in_bounds { (j ≤ length u.now) × (next ≤ j + 1) × (next ≤ length u.now) }
    ensures { Written g work.old work.new r a OUTPUT (said u.now place tag j a next) }
{
    clear(work, g, r, a, OUTPUT);
    if j == u.len() {
        push(work, g, r, a, OUTPUT, a);
        return;
    }
    if next == u.len() {
        push(work, g, r, a, OUTPUT, usize::from(tag));
        push_all(work, g, r, a, OUTPUT, &u[place + 1..]);
        return;
    }
    if place < next {
        push_all(work, g, r, a, OUTPUT, &u[place..place + (j + 1 - next)]);
        return;
    }
    push_all(work, g, r, a, OUTPUT, &u[place.min(j)..j]);
    push(work, g, r, a, OUTPUT, a);
}

// What is held where the first j tags are matched.
pub fn write_final(work: &mut [u16], g: Grid, r: usize, u: &[u8], place: usize, tag: u8, j: usize)
    requires room { Room g work.old u.now place }
    requires r_lt_rows { (r < g.rows) × (j ≤ length u.now) }
    ensures { Written g work.old work.new r g.tags FINAL (held u.now place j) }
{
    clear(work, g, r, g.tags, FINAL);
    if j == u.len() {
        return;
    }
    push_all(work, g, r, g.tags, FINAL, &u[place.min(j)..j]);
}

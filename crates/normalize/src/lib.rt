// Normalization: the result does the same, and each state puts out as early as can be.
// Time O(r n k d) for r rounds (at most one for each tag held, in practice a few), n states, k tags and words of d tags; space is a note
// in each row. From Choffrut and Mohri: what every answer from a state begins with is put out on the way into that state.
#![tactic(auto)]

ghost use Rattle.std.specs.Prelude.{◌≡◌, ℕ, ◌+◌, ◌≤◌, ◌<◌, ◌++◌, length};
ghost use Rattle.words.specs.Front.{meet};
ghost use Rattle.workspace.specs.Entries.{OUTPUT, FINAL};
ghost use Rattle.workspace.specs.Cells.{at, Sized, Inner, Written, Fits};
ghost use Rattle.workspace.specs.Holds.{Ready, standing};
ghost use Rattle.normalize.specs.Fronts.{front_size, front_at, Fronted, Rests, Turn, Settled, Started};
ghost use Rattle.normalize.specs.Strip.{stripped_at, Strip, RowStripped, StepsStripped, FinalsStripped, Normalized};

use workspace::{FINAL, FRONT, NEXT, OUTPUT, Part, append, clear, common, drop_front, get, put};

// What the front of q and the step on a, with the front after it, have in common.
fn meeting(work: &[u16], part: Part, q: usize, a: usize) -> usize
    requires fronted { Fronted part.grid work.now part.base part.states }
    requires q_lt_n { (q < part.states) × (a < part.grid.tags) }
    ensures { result ≡ length (meet (front_at part.grid work.now part.base part.states q) ((standing part.grid work.now part.base part.states).output q a ++ front_at part.grid work.now part.base part.states ((standing part.grid work.now part.base part.states).next q a))) }
{
    let Part { grid, base, .. } = part;
    let own = get(work, grid, base + q, grid.tags, FRONT);
    let long = get(work, grid, base + q, a, OUTPUT);
    if own <= long {
        return common(
            work,
            grid,
            base + q,
            grid.tags,
            FINAL,
            0,
            base + q,
            a,
            OUTPUT,
            own,
        );
    }
    let j = common(
        work,
        grid,
        base + q,
        grid.tags,
        FINAL,
        0,
        base + q,
        a,
        OUTPUT,
        long,
    );
    if j < long {
        return j;
    }
    let next = get(work, grid, base + q, a, NEXT);
    let other = get(work, grid, base + next, grid.tags, FRONT);
    long + common(
        work,
        grid,
        base + q,
        grid.tags,
        FINAL,
        long,
        base + next,
        grid.tags,
        FINAL,
        (own - long).min(other),
    )
}

fn lower_step(work: &mut [u16], part: Part, q: usize, a: usize) -> bool
    requires fronted { Fronted part.grid work.old part.base part.states }
    requires q_lt_n { (q < part.states) × (a < part.grid.tags) }
    ensures { Turn part.grid work.old work.new part.base part.states (Rests part.grid work.old part.base part.states q a) result }
{
    let Part { grid, base, .. } = part;
    let own = get(work, grid, base + q, grid.tags, FRONT);
    let j = meeting(work, part, q, a);
    if j < own {
        put(work, grid, base + q, grid.tags, FRONT, j);
        return true;
    }
    false
}

fn lower_steps(work: &mut [u16], part: Part, q: usize) -> bool
    requires fronted { Fronted part.grid work.old part.base part.states }
    requires q_lt_n { q < part.states }
    ensures { Turn part.grid work.old work.new part.base part.states ((a : ℕ) → a < part.grid.tags → Rests part.grid work.old part.base part.states q a) result }
{
    let mut fell = false;
    for a in 0..part.grid.tags {
        fell |= lower_step(work, part, q, a);
    }
    fell
}

// The front of q, if there is one, is lowered to what it has in common with every step.
fn lower_state(work: &mut [u16], part: Part, q: usize) -> bool
    requires fronted { Fronted part.grid work.old part.base part.states }
    requires q_lt_n { q < part.states }
    ensures { Turn part.grid work.old work.new part.base part.states ((a : ℕ) → a < part.grid.tags → Rests part.grid work.old part.base part.states q a) result }
{
    if get(work, part.grid, part.base + q, part.grid.tags, FRONT) == 0 {
        return false;
    }
    lower_steps(work, part, q)
}

fn lower_all(work: &mut [u16], part: Part) -> bool
    requires { Fronted part.grid work.old part.base part.states }
    ensures { Turn part.grid work.old work.new part.base part.states ((q : ℕ) → q < part.states → (a : ℕ) → a < part.grid.tags → Rests part.grid work.old part.base part.states q a) result }
{
    let mut fell = false;
    for q in 0..part.states {
        fell |= lower_state(work, part, q);
    }
    fell
}

fn settle(work: &mut [u16], part: Part)
    requires { Fronted part.grid work.old part.base part.states }
    ensures { Settled part.grid work.old work.new part.base part.states }
{
    while lower_all(work, part) {}
}

fn start_fronts(work: &mut [u16], part: Part)
    requires { Ready part.grid work.old part.base part.states }
    ensures { Started part.grid work.old work.new part.base part.states }
{
    let Part { grid, base, .. } = part;
    for q in 0..part.states {
        let long = get(work, grid, base + q, grid.tags, FINAL);
        put(work, grid, base + q, grid.tags, FRONT, long);
    }
}

fn strip_step(work: &mut [u16], part: Part, q: usize, a: usize)
    requires { Strip part.grid work.old part.base q a }
    ensures { Written part.grid work.old work.new (part.base + q) a OUTPUT (stripped_at part.grid work.old part.base q a) }
{
    let Part { grid, base, .. } = part;
    let own = get(work, grid, base + q, grid.tags, FRONT);
    let long = get(work, grid, base + q, a, OUTPUT);
    let next = get(work, grid, base + q, a, NEXT);
    let other = get(work, grid, base + next, grid.tags, FRONT);
    if own <= long {
        drop_front(work, grid, base + q, a, OUTPUT, own);
        append(
            work,
            grid,
            base + next,
            grid.tags,
            FINAL,
            0,
            other,
            base + q,
            a,
            OUTPUT,
        );
        return;
    }
    clear(work, grid, base + q, a, OUTPUT);
    append(
        work,
        grid,
        base + next,
        grid.tags,
        FINAL,
        own - long,
        other,
        base + q,
        a,
        OUTPUT,
    );
}

fn strip_row(work: &mut [u16], part: Part, q: usize)
    requires { (a : ℕ) → a < part.grid.tags → Strip part.grid work.old part.base q a }
    ensures { RowStripped part.grid work.old work.new part.base q part.grid.tags }
{
    for a in 0..part.grid.tags {
        strip_step(work, part, q, a);
    }
}

fn strip_steps(work: &mut [u16], part: Part)
    requires { (q a : ℕ) → q < part.states → a < part.grid.tags → Strip part.grid work.old part.base q a }
    ensures { StepsStripped part.grid work.old work.new part.base part.states }
{
    for q in 0..part.states {
        strip_row(work, part, q);
    }
}

fn strip_finals(work: &mut [u16], part: Part)
    requires sized { Sized part.grid work.old }
    requires n_bound { (part.base + part.states ≤ part.grid.rows) × Fits part.grid FINAL 0 }
    requires by_index { (q : ℕ) → q < part.states → Inner part.grid work.old (part.base + q) part.grid.tags FINAL × (front_size part.grid work.old part.base q ≤ at part.grid work.old (part.base + q) part.grid.tags FINAL) }
    ensures { FinalsStripped part.grid work.old work.new part.base part.states }
{
    let Part { grid, base, .. } = part;
    for q in 0..part.states {
        let own = get(work, grid, base + q, grid.tags, FRONT);
        drop_front(work, grid, base + q, grid.tags, FINAL, own);
    }
}

// The states of the part.
pub fn normalize(work: &mut [u16], part: Part)
    requires { Ready part.grid work.old part.base part.states }
    ensures { Normalized part.grid work.old work.new part.base part.states }
{
    start_fronts(work, part);
    settle(work, part);
    strip_steps(work, part);
    strip_finals(work, part);
}

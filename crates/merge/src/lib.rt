// Merging: a class for each state, named by the least of the states that still put out the same.
// Time O(r n k c) for r rounds (at most n, in practice a few), n states, k tags and c names tried for a state, which are those of the new
// classes within its old one; the first round compares words of d tags, O(n k c d). Space is three notes in each row.
// From Moore: states are told apart by what they put out at a step, then by where the step leads, until no class splits.
#![tactic(auto)]

ghost use Rattle.std.specs.Prelude.{◌≡◌, ℕ, ◌+◌, ◌<◌, true, false};
ghost use Rattle.words.specs.Decides.{Decides};
ghost use Rattle.workspace.specs.Holds.{Ready, standing};
ghost use Rattle.transducers.specs.Canonical.{Early};
ghost use Rattle.merge.specs.Seats.{digest, Seating, Seated};
ghost use Rattle.merge.specs.Classes.{class_of, Nexts, Key, Partition, Parted, Found, Placed, NewName, Taken, Round, Merged};

use workspace::{
    CLASS, FINAL, HEAD, LINK, NEW, NEXT, OUTPUT, Part, clear_notes, get, put, same_words,
};

fn same_outputs(work: &[u16], part: Part, p: usize, q: usize) -> bool
    requires ready { Ready part.grid work.now part.base part.states }
    requires p_lt_n { (p < part.states) × (q < part.states) }
    ensures { Decides result ((a : ℕ) → a < part.grid.tags → (standing part.grid work.now part.base part.states).output p a ≡ (standing part.grid work.now part.base part.states).output q a) }
{
    let Part { grid, base, .. } = part;
    for a in 0..grid.tags {
        if !same_words(work, grid, base + p, a, OUTPUT, base + q, a, OUTPUT) {
            return false;
        }
    }
    true
}

fn same_nexts(work: &[u16], part: Part, p: usize, q: usize) -> bool
    requires ready { Ready part.grid work.now part.base part.states }
    requires p_lt_n { (p < part.states) × (q < part.states) }
    ensures { Decides result (Nexts part.grid work.now part.base part.states p q) }
{
    let Part { grid, base, .. } = part;
    for a in 0..grid.tags {
        let p2 = get(work, grid, base + p, a, NEXT);
        let q2 = get(work, grid, base + q, a, NEXT);
        if get(work, grid, base + p2, grid.tags, CLASS)
            != get(work, grid, base + q2, grid.tags, CLASS)
        {
            return false;
        }
    }
    true
}

// Whether p and q are alike: at first by the words that they put out, then by the classes of their next states.
fn alike(work: &[u16], part: Part, p: usize, q: usize, first: bool) -> bool
    requires ready { Ready part.grid work.now part.base part.states }
    requires p_lt_n { (p < part.states) × (q < part.states) }
    ensures { Decides result (Key part.grid work.now part.base part.states first p q) }
{
    let Part { grid, base, .. } = part;
    if !first {
        return same_nexts(work, part, p, q);
    }
    if !same_words(
        work,
        grid,
        base + p,
        grid.tags,
        FINAL,
        base + q,
        grid.tags,
        FINAL,
    ) {
        return false;
    }
    same_outputs(work, part, p, q)
}

// A name within the class of q, the least that is alike; where none is, the last one is the error.
fn find_name(work: &[u16], part: Part, q: usize, c: usize, first: bool) -> Result<usize, usize>
    requires parted { Parted part.grid work.now part.base part.states first q }
    requires q_lt_n { (q < part.states) × (c < q) × (c ≡ class_of part.grid work.now part.base q) }
    ensures { Found part.grid work.now part.base part.states first q result }
{
    let mut p = c;
    while !alike(work, part, p, q, first) {
        let next = get(work, part.grid, part.base + p, part.grid.tags, LINK);
        if next == 0 {
            return Err(p);
        }
        p = next;
    }
    Ok(p)
}

fn name_new(work: &mut [u16], part: Part, q: usize)
    requires ready { Ready part.grid work.old part.base part.states }
    requires q_lt_n { q < part.states }
    ensures { NewName part.grid work.old work.new part.base q }
{
    let Part { grid, base, .. } = part;
    put(work, grid, base + q, grid.tags, NEW, q);
    put(work, grid, base + q, grid.tags, LINK, 0);
}

// The new class of q.
fn place(work: &mut [u16], part: Part, q: usize, first: bool)
    requires parted { Parted part.grid work.old part.base part.states first q }
    requires q_lt_n { q < part.states }
    ensures { Placed part.grid work.old work.new part.base part.states first (q + 1) }
{
    let Part { grid, base, .. } = part;
    let c = get(work, grid, base + q, grid.tags, CLASS);
    if c == q {
        name_new(work, part, q);
        return;
    }
    match find_name(work, part, q, c, first) {
        Ok(name) => put(work, grid, base + q, grid.tags, NEW, name),
        Err(last) => {
            put(work, grid, base + last, grid.tags, LINK, q);
            name_new(work, part, q);
        }
    }
}

fn split(work: &mut [u16], part: Part, first: bool)
    requires { Partition part.grid work.old part.base part.states }
    ensures { Placed part.grid work.old work.new part.base part.states first part.states }
{
    for q in 0..part.states {
        place(work, part, q, first);
    }
}

fn take_over(work: &mut [u16], part: Part) -> bool
    requires { Ready part.grid work.old part.base part.states }
    ensures { Taken part.grid work.old work.new part.base part.states part.states result }
{
    let Part { grid, base, .. } = part;
    let mut changed = false;
    for q in 0..part.states {
        let c = get(work, grid, base + q, grid.tags, CLASS);
        let d = get(work, grid, base + q, grid.tags, NEW);
        put(work, grid, base + q, grid.tags, CLASS, d);
        changed |= d != c;
    }
    changed
}

fn round(work: &mut [u16], part: Part, first: bool) -> bool
    requires { Partition part.grid work.old part.base part.states }
    ensures { Round part.grid work.old work.new part.base part.states first result }
{
    split(work, part, first);
    take_over(work, part)
}

// A number made of the lengths of q's words.
fn digest_of(work: &[u16], part: Part, q: usize) -> usize
    requires ready { Ready part.grid work.now part.base part.states }
    requires q_lt_n { q < part.states }
    ensures { result ≡ digest part.grid work.now part.base q }
{
    let Part { grid, base, .. } = part;
    let tags = grid.tags;
    let mut h = get(work, grid, base + q, tags, FINAL);
    for a in 0..tags {
        h = (h * 31 + get(work, grid, base + q, a, OUTPUT)) % 0x10000;
    }
    h
}

// The class of q: the first state of its bucket.
fn seat(work: &mut [u16], part: Part, q: usize)
    requires seating { Seating part.grid work.old part.base part.states q }
    requires q_lt_n { q < part.states }
    ensures { Seated part.grid work.old work.new part.base part.states (q + 1) }
{
    let Part { grid, base, .. } = part;
    let b = digest_of(work, part, q) % part.states;
    let head = get(work, grid, base + b, grid.tags, HEAD);
    if head != 0 {
        put(work, grid, base + q, grid.tags, CLASS, head - 1);
        return;
    }
    put(work, grid, base + b, grid.tags, HEAD, q + 1);
    put(work, grid, base + q, grid.tags, CLASS, q);
}

fn seat_all(work: &mut [u16], part: Part)
    requires { Seating part.grid work.old part.base part.states 0 }
    ensures { Seated part.grid work.old work.new part.base part.states part.states }
{
    for q in 0..part.states {
        seat(work, part, q);
    }
}

// Classes to begin with.
fn start_classes(work: &mut [u16], part: Part)
    requires { Ready part.grid work.old part.base part.states }
    ensures { Seated part.grid work.old work.new part.base part.states part.states }
{
    clear_notes(work, part.grid, part.base, part.states, HEAD);
    seat_all(work, part);
}

// The classes of the part's states, each noted in its row.
pub fn merge(work: &mut [u16], part: Part)
    requires ready { Ready part.grid work.old part.base part.states }
    requires early { Early part.grid.tags (standing part.grid work.old part.base part.states) }
    ensures { Merged part.grid work.old work.new part.base part.states }
{
    start_classes(work, part);
    round(work, part, true);
    while round(work, part, false) {}
}

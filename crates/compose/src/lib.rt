// Composition: the result puts out what the second transducer makes of what the first puts out.
// Time O(p k d) for p reached pairs of states, k tags and words of d tags; space is the p rows of the result, and notes in n m rows for
// n and m states. From Roche and Schabes (002, section 2): run the second on each output of the first.
#![tactic(auto)]

ghost use Rattle.std.specs.Prelude.{◌+◌, ◌*◌, ◌/◌, ◌%◌, ◌<◌, []};
ghost use Rattle.workspace.specs.Entries.{FINAL};
ghost use Rattle.workspace.specs.Cells.{at, word, Kept, InRows, Written};
ghost use Rattle.worklist.specs.Worklist.{Worklist};
ghost use Rattle.compose.specs.Runs.{Runs, Arrived};
ghost use Rattle.compose.specs.Pairs.{StepPaired, StepsPaired, RowPaired};
ghost use Rattle.compose.specs.Composed.{Composable, Composed};
ghost use Rattle.compose.specs.Products.{Pairable, product_in};

use workspace::{FINAL, Grid, NEXT, OUTPUT, append_word, clear, get, put};

// The transducer in m rows from `base` runs from its state q over the word at (r, c, s); what it puts out goes after the word at
// (r2, c2, s2).
fn run_word(
    work: &mut [u16],
    g: Grid,
    base: usize,
    m: usize,
    q: usize,
    r: usize,
    c: usize,
    s: usize,
    r2: usize,
    c2: usize,
    s2: usize,
) -> usize
    requires { Runs g work.old base m q r c s r2 c2 (s2 + at g work.old r2 c2 s2) }
    ensures { Arrived g work.old work.new base m q r c s r2 c2 s2 (word g work.old r2 c2 s2) result }
{
    let n = get(work, g, r, c, s);
    let mut state = q;
    for i in 0..n {
        let tag = get(work, g, r, c, s + i + 1);
        append_word(work, g, base + state, tag, OUTPUT, r2, c2, s2);
        state = get(work, g, base + state, tag, NEXT);
    }
    state
}

fn run_into(
    work: &mut [u16],
    g: Grid,
    base: usize,
    m: usize,
    q: usize,
    r: usize,
    c: usize,
    s: usize,
    r2: usize,
    c2: usize,
    s2: usize,
) -> usize
    requires { Runs g work.old base m q r c s r2 c2 s2 }
    ensures { Arrived g work.old work.new base m q r c s r2 c2 s2 [] result }
{
    clear(work, g, r2, c2, s2);
    run_word(work, g, base, m, q, r, c, s, r2, c2, s2)
}

// The transducers in n rows from `first` and m rows from `second`, and the rows from `base`, which are for their pairs of states.
#[derive(Clone, Copy)]
struct Pairing {
    first: usize,
    n: usize,
    second: usize,
    m: usize,
    base: usize,
}

impl Pairing {
    // The step of the state i on the tag a, where i stands for the pair s = (q, r): the number of states then.
    fn step(self, work: &mut [u16], g: Grid, len: usize, i: usize, s: usize, a: usize) -> usize
        requires composable { Pairable g work.old self }
        requires worklist { Worklist g work.old self.base (self.n * self.m) len }
        requires i_lt_len { (i < len) × (s < self.n * self.m) × (a < g.tags) }
        ensures { StepPaired g work.old work.new self.base (self.n * self.m) len i s (product_in g work.old self) a result }
    {
        let Pairing {
            first,
            second,
            m,
            base,
            ..
        } = self;
        let total = self.n * m;
        let q = s / m;
        let r = run_into(
            work,
            g,
            second,
            m,
            s % m,
            first + q,
            a,
            OUTPUT,
            base + i,
            a,
            OUTPUT,
        );
        let next = get(work, g, first + q, a, NEXT);
        let pair = next * m + r;
        let to = worklist::enter(work, g, base, total, len, pair);
        let state = worklist::place_of(work, g, base, total, to, pair);
        put(work, g, base + i, a, NEXT, state);
        to
    }

    fn steps(self, work: &mut [u16], g: Grid, len: usize, i: usize, s: usize) -> usize
        requires composable { Pairable g work.old self }
        requires worklist { Worklist g work.old self.base (self.n * self.m) len }
        requires i_lt_len { (i < len) × (s < self.n * self.m) }
        ensures { StepsPaired g work.old work.new self.base (self.n * self.m) len i s (product_in g work.old self) g.tags result }
    {
        let mut to = len;
        for a in 0..g.tags {
            to = self.step(work, g, to, i, s, a);
        }
        to
    }

    // What the state i, which stands for the pair s, holds at the end.
    fn held(self, work: &mut [u16], g: Grid, i: usize, s: usize)
        requires composable { Pairable g work.old self }
        requires i_bound { (i < self.n * self.m) × (s < self.n * self.m) }
        ensures { Written g work.old work.new (self.base + i) g.tags FINAL ((product_in g work.old self).final s) }
    {
        let Pairing {
            first,
            second,
            m,
            base,
            ..
        } = self;
        let q = s / m;
        let to = run_into(
            work,
            g,
            second,
            m,
            s % m,
            first + q,
            g.tags,
            FINAL,
            base + i,
            g.tags,
            FINAL,
        );
        append_word(work, g, second + to, g.tags, FINAL, base + i, g.tags, FINAL);
    }

    // The row of the state i, which stands for the pair s: the number of states then.
    fn row(self, work: &mut [u16], g: Grid, len: usize, i: usize, s: usize) -> usize
        requires composable { Pairable g work.old self }
        requires worklist { Worklist g work.old self.base (self.n * self.m) len }
        requires i_lt_len { (i < len) × (s < self.n * self.m) }
        ensures { RowPaired g work.old work.new self.base (self.n * self.m) len i s (product_in g work.old self) result }
    {
        let to = self.steps(work, g, len, i, s);
        self.held(work, g, i, s);
        to
    }
}

// To the rows from `base`, a state for each pair that is reached: the number of states.
pub fn compose(
    work: &mut [u16],
    g: Grid,
    first: usize,
    n: usize,
    second: usize,
    m: usize,
    base: usize,
) -> usize
    requires { Composable g work.old first n second m base }
    ensures { Composed g work.old work.new first n second m base result }
{
    let pairs = Pairing {
        first,
        n,
        second,
        m,
        base,
    };
    let total = n * m;
    worklist::begin(work, g, base, total);
    let mut len = 1;
    let mut i = 0;
    // Stays: the list grows while it is walked, so that no range and no iterator has its end.
    while i < len {
        let s = worklist::member(work, g, base, total, len, i);
        len = pairs.row(work, g, len, i, s);
        i += 1;
    }
    len
}

// Whether two tables over k tags make the same of every sentence: one in its bytes, with its index, the other in the first rows of the work slice (J. Hopcroft and R.
// Karp, "A linear algorithm for testing equivalence of finite automata", 1971). The list begins with the empty word; each listed word is tried with each tag more, and
// where that leads to states of different labels it is listed, and one label becomes the other. A table that puts out later does the same: only what both make of a
// word is compared. Time O(s * k) comparisons of a step for s states of both.
#![tactic(auto)]

ghost use Rattle.std.specs.Prelude.{◌≡◌, ◌+◌, ◌≤◌, ◌<◌, length};
ghost use Rattle.agreement.specs.Search.{StepAgrees};
ghost use Rattle.agreement.specs.Stored.{Searching, left_at, right_at};
ghost use Rattle.equivalence.specs.Both.{TablesOf, first, second};
ghost use Rattle.equivalence.specs.Search.{Stored, Buffers, Followed, TriedAs, Sought, Judged};

use comparing::{BUFFER, step_agrees};
use limits::Limits;
use listing::{LABELS, NUMBERS, left_of, link, right_of};
use steps::next_state;
use workspace::{Grid, NEXT, get};

// The two tables: one of so many states in its bytes, with its index, and one in the first rows of the work slice.
#[derive(Clone, Copy)]
pub struct Both<'a> {
    pub table: &'a [u8],
    pub index: &'a [u64],
    pub states: usize,
    pub work: &'a [u16],
    pub grid: Grid,
    pub rows: usize,
    pub lim: Limits,
}

// A listed word that leads to states which differ on a tag.
#[derive(Clone, Copy)]
struct Difference {
    word: usize,
    tag: usize,
}

// The i-th word, which leads to p and q, with the tag a more is listed if its states have different labels: how many words are listed.
fn follow(
    both: Both,
    labels: &mut [usize],
    pairs: &mut [usize],
    n: usize,
    i: usize,
    p: usize,
    q: usize,
    a: usize,
) -> usize
    requires tables { TablesOf both × Stored both.states both.rows labels.old pairs.old }
    requires searching { Searching both.grid.tags (first both) (second both) n i a labels.old pairs.old × (i < n) × (a < both.grid.tags) }
    requires p_value { (p ≡ left_at pairs.old i) × (q ≡ right_at pairs.old i) × StepAgrees (first both) (second both) p q a }
    ensures { Followed both.entry.grid.tags (first both.entry) (second both.entry) both.entry.states both.entry.rows i (a + 1) labels.new pairs.new result }
{
    let g = both.grid;
    let s = both.states;
    let e = comparing::entry_of(both.index, p, a + 1, g.tags);
    let left = next_state(e, g.tags);
    let right = get(both.work, g, q, a, NEXT);
    let total = s + both.rows;
    link(labels, pairs, total, n, left, s + right, left, right, i, a)
}

// The i-th word is tried with every tag: how many words are listed then.
fn try_word(
    both: Both,
    labels: &mut [usize],
    pairs: &mut [usize],
    n: usize,
    i: usize,
    one: &mut [u8],
    two: &mut [u8],
) -> Result<usize, Difference>
    requires tables { TablesOf both × Stored both.states both.rows labels.old pairs.old × Buffers one.old two.old }
    requires searching { Searching both.grid.tags (first both) (second both) n i 0 labels.old pairs.old × (i < n) }
    ensures { TriedAs both.entry.grid.tags (first both.entry) (second both.entry) both.entry.states both.entry.rows i labels.new pairs.new result }
{
    let mut count = n;
    for a in 0..both.grid.tags {
        let p = left_of(pairs, i);
        let q = right_of(pairs, i);
        let agrees = step_agrees(
            both.table, both.index, both.work, both.grid, both.rows, p, q, a, one, two,
        );
        if !agrees {
            return Err(Difference { word: i, tag: a });
        }
        count = follow(both, labels, pairs, count, i, p, q, a);
    }
    Ok(count)
}

// Each listed word is tried.
fn seek(both: Both, labels: &mut [usize], pairs: &mut [usize]) -> Result<(), Difference>
    requires tables { TablesOf both × Stored both.states both.rows labels.old pairs.old }
    requires searching { Searching both.grid.tags (first both) (second both) 1 0 0 labels.old pairs.old }
    ensures { Sought both.entry.grid.tags (first both.entry) (second both.entry) both.entry.states both.entry.rows pairs.new result }
{
    let mut one = [0u8; BUFFER];
    let mut two = [0u8; BUFFER];
    let mut n = 1;
    let mut i = 0;
    // Stays: more words are listed while it runs.
    while i < n {
        n = try_word(both, labels, pairs, n, i, &mut one, &mut two)?;
        i += 1;
    }
    Ok(())
}

// None if both make the same of every sentence. If not, a sentence on which they differ is written to the front of `out`: how many tags it has.
pub fn compare(both: Both, out: &mut [u8]) -> Option<usize>
    requires { TablesOf both × (512 ≤ length out.old) }
    ensures { Judged both.entry.grid.tags (first both.entry) (second both.entry) out.old out.new result }
{
    let mut labels = [0usize; LABELS];
    let mut pairs = [0usize; NUMBERS * LABELS];
    let s = both.states;
    let total = s + both.rows;
    listing::number_labels(&mut labels, total);
    link(&mut labels, &mut pairs, total, 0, 0, s, 0, 0, 0, 0);
    match seek(both, &mut labels, &mut pairs) {
        Ok(()) => None,
        Err(Difference { word, tag }) => Some(listing::write_sentence(
            &pairs,
            word + 1,
            both.grid.tags,
            word,
            tag,
            out,
        )),
    }
}

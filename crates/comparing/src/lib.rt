// Whether two tables that make the same of a word make the same of it with one tag more. The first stands in its bytes, with its index; the second in the first
// rows of the work slice. Both words are put into buffers and compared; time O(h) for h held tags.
#![tactic(auto)]

ghost use Rattle.std.specs.Prelude.{◌≡◌, ℕ, ◌+◌, ◌*◌, ◌-◌, ◌≤◌, ◌<◌, List, [], ◌∷◌, ◌++◌, length, take, get_or};
ghost use Rattle.std.proofs.Math.Seq.{paste};
ghost use Rattle.words.specs.Decides.{Decides};
ghost use Rattle.limits.specs.Limits.{most_tags, most_states};
ghost use Rattle.transducers.specs.Transducer.{puts};
ghost use Rattle.transducers.specs.Table.{Table, shape};
ghost use Rattle.agreement.specs.Search.{StepAgrees};
ghost use Rattle.workspace.specs.Cells.{word, at, Sized};
ghost use Rattle.workspace.specs.Holds.{Ready, standing};
ghost use Rattle.encoder.specs.Encoding.{Bytes};
ghost use Rattle.comparing.specs.Step.{Indexed, Comparable, FrontPut, StepPuts, Puttable, LeftPut, RightPut};

use steps::{base_of, count_of, place_of};
use transduction::{put, put_word};
use workspace::{FINAL, Grid, NEXT, OUTPUT, get};

// More than any word that is compared has.
pub const BUFFER: usize = 128;

// The first tags of the word at (r, c, s), so many, to `out` from `from`.
fn put_cells(
    work: &[u16],
    g: Grid,
    r: usize,
    c: usize,
    s: usize,
    count: usize,
    out: &mut [u8],
    from: usize,
)
    requires sized { Sized g work.now × Bytes g work.now r c s }
    requires count_bound { (count ≤ at g work.now r c s) × (from + count ≤ length out.old) }
    ensures { out.new ≡ paste out.old from (word g work.now r c s) count }
{
    for i in 0..count {
        let tag = get(work, g, r, c, s + i + 1);
        out[from + i] = encoder::byte(tag);
    }
}

// The cell of a state's final word in the index of a table over k tags.
fn cell_of(state: usize, k: usize) -> usize
    requires { (state < most_states) × (k ≤ most_tags) }
    ensures { result ≡ state * (k + 1) }
{
    state * (k + 1)
}

// The entry of a state's column in that index: 0 is its final word, 1 + a its step on the tag a.
pub fn entry_of(index: &[u64], state: usize, column: usize, k: usize) -> u64
    requires { (state < most_states) × (k ≤ most_tags) × (state * (k + 1) + column < length index.now) }
    ensures { result ≡ get_or index.now (state * (k + 1) + column) 0 }
{
    index[cell_of(state, k) + column]
}

// The word of a step's entry and the final word after it, to `out` from `from`: where they end.
fn put_step(table: &[u8], index: &[u64], e: u64, out: &mut [u8], from: usize) -> usize
    requires { Puttable table.now index.now e out.old from }
    ensures { (w f : List ℕ) → StepPuts table.now index.now e w f → FrontPut out.old out.new from (w ++ f) result }
{
    let to = put(table, e, out, from);
    let f = index[base_of(e) - 1];
    let count = count_of(f);
    put_word(table, place_of(f), count, out, to);
    to + count
}

// The same of the state in row q and its tag a.
fn put_row(
    work: &[u16],
    g: Grid,
    n: usize,
    q: usize,
    a: usize,
    out: &mut [u8],
    from: usize,
) -> usize
    requires ready { Ready g work.now 0 n × (g.tags ≤ most_tags) }
    requires q_lt_n { (q < n) × (a < g.tags) × (from + length (puts (standing g work.now 0 n) q (a ∷ [])) ≤ length out.old) }
    ensures { FrontPut out.old out.new from (puts (standing g work.now 0 n) q (a ∷ [])) result }
{
    let count = get(work, g, q, a, OUTPUT);
    put_cells(work, g, q, a, OUTPUT, count, out, from);
    let next = get(work, g, q, a, NEXT);
    let held = get(work, g, next, g.tags, FINAL);
    put_cells(work, g, next, g.tags, FINAL, held, out, from + count);
    from + count + held
}

// What the first table has put out before the second, the word of its step on a and the final word after it: how many tags.
fn put_left(
    table: &[u8],
    index: &[u64],
    work: &[u16],
    g: Grid,
    n: usize,
    p: usize,
    q: usize,
    a: usize,
    out: &mut [u8],
) -> usize
    requires { Comparable table.now index.now g work.now n p q a out.old }
    ensures { (t : Table) → Indexed g.tags t table.now index.now → p < length t → LeftPut (shape t) (standing g work.now 0 n) p q a out.new result }
{
    let held = count_of(entry_of(index, p, 0, g.tags));
    let ahead = get(work, g, q, g.tags, FINAL).saturating_sub(held);
    put_cells(work, g, q, g.tags, FINAL, ahead, out, 0);
    let e = entry_of(index, p, a + 1, g.tags);
    put_step(table, index, e, out, ahead)
}

// The same of the second table.
fn put_right(
    table: &[u8],
    index: &[u64],
    work: &[u16],
    g: Grid,
    n: usize,
    p: usize,
    q: usize,
    a: usize,
    out: &mut [u8],
) -> usize
    requires { Comparable table.now index.now g work.now n p q a out.old }
    ensures { (t : Table) → Indexed g.tags t table.now index.now → p < length t → RightPut (shape t) (standing g work.now 0 n) p q a out.new result }
{
    let f = entry_of(index, p, 0, g.tags);
    let ahead = count_of(f).saturating_sub(get(work, g, q, g.tags, FINAL));
    put_word(table, place_of(f), ahead, out, 0);
    put_row(work, g, n, q, a, out, ahead)
}

// Whether both put out the same at the tag a, from the states p and q to which a word leads them of which they make the same.
pub fn step_agrees(
    table: &[u8],
    index: &[u64],
    work: &[u16],
    g: Grid,
    n: usize,
    p: usize,
    q: usize,
    a: usize,
    left: &mut [u8],
    right: &mut [u8],
) -> bool
    requires comparable { Comparable table.now index.now g work.now n p q a left.old }
    requires right_len { length right.old ≡ length left.old }
    ensures { (t : Table) → Indexed g.tags t table.now index.now → p < length t → Decides result (StepAgrees (shape t) (standing g work.now 0 n) p q a) }
{
    let count = put_left(table, index, work, g, n, p, q, a, left);
    if count != put_right(table, index, work, g, n, p, q, a, right) {
        return false;
    }
    left[..count] == right[..count]
}

// The lent slice of 16-bit numbers as rows of cells of entries.
#![tactic(auto)]

ghost use Rattle.std.specs.Prelude.{◌≡◌, ◌+◌, ◌*◌, ◌^◌, ◌≤◌, ◌<◌, [], ◌∷◌, ◌++◌, false, length, drop, take};
ghost use Rattle.words.specs.Front.{meet};
ghost use Rattle.workspace.specs.Cells.{ix, at, word, Sized, In, Inner, Got, Put, Cleared, Written, part};
ghost use Rattle.words.specs.Decides.{Decides};

// The entries of a step's cell: the next state, and the number of tags put out, which come after it.
pub const NEXT: usize = 0;

pub const OUTPUT: usize = 1;

// The entries of a row's last cell: the number of tags of the final word, which come after it, and before it what the phases note:
// normalization how many tags are put out earlier; merging the class, the new class, and the name that follows a name, and to begin
// with the first state of a bucket; a worklist its i-th member, and one more than the place of a member.
pub const FRONT: usize = 0;

pub const CLASS: usize = 1;

pub const NEW: usize = 2;

pub const HEAD: usize = 2;

pub const LINK: usize = 3;

pub const MEMBER: usize = 4;

pub const MARK: usize = 5;

pub const FINAL: usize = 7;

// Each row has a cell for every tag and one more.
#[derive(Clone, Copy)]
pub struct Grid {
    pub rows: usize,
    pub tags: usize,
    pub depth: usize,
}

fn index_of(g: Grid, r: usize, c: usize, e: usize) -> usize
    requires fact { In g r c e }
    requires depth_bound { g.rows * (g.tags + 1) * g.depth < 2 ^ 64 }
    ensures value { result ≡ ix g r c e }
    ensures below { result < g.rows * (g.tags + 1) * g.depth }
{
    (r * (g.tags + 1) + c) * g.depth + e
}

pub fn get(work: &[u16], g: Grid, r: usize, c: usize, e: usize) -> usize
    requires sized { Sized g work.now }
    requires fact { In g r c e }
    ensures { Got g work.now r c e result }
{
    let i = index_of(g, r, c, e);
    usize::from(work[i])
}

pub fn put(work: &mut [u16], g: Grid, r: usize, c: usize, e: usize, v: usize)
    requires sized { Sized g work.old }
    requires fact { In g r c e }
    requires v_bound { v < 65536 }
    ensures { Put g work.old work.new r c e v }
{
    let i = index_of(g, r, c, e);
    work[i] = v as u16;
}

// Entry e of n rows' last cells becomes zero.
pub fn clear_notes(work: &mut [u16], g: Grid, base: usize, n: usize, e: usize)
    requires sized { Sized g work.old }
    requires n_bound { (base + n ≤ g.rows) × (e < g.depth) }
    ensures { Cleared g work.old work.new base n e n }
{
    for q in 0..n {
        put(work, g, base + q, g.tags, e, 0);
    }
}

// No tag at s.
pub fn clear(work: &mut [u16], g: Grid, r: usize, c: usize, s: usize)
    requires sized { Sized g work.old }
    requires fact { In g r c s }
    ensures { Written g work.old work.new r c s [] }
{
    put(work, g, r, c, s, 0);
}

// A tag after the word at s.
pub fn push(work: &mut [u16], g: Grid, r: usize, c: usize, s: usize, tag: usize)
    requires sized { Sized g work.old }
    requires fact { In g r c (s + at g work.old r c s + 1) }
    requires tag_bound { tag < 65536 }
    ensures { Written g work.old work.new r c s (word g work.old r c s ++ (tag ∷ [])) }
{
    let n = get(work, g, r, c, s);
    put(work, g, r, c, s + n + 1, tag);
    put(work, g, r, c, s, n + 1);
}

// The tags of one word from a place up to another, after another cell's word.
pub fn append(
    work: &mut [u16],
    g: Grid,
    r: usize,
    c: usize,
    s: usize,
    from: usize,
    to: usize,
    r2: usize,
    c2: usize,
    s2: usize,
)
    requires sized { Sized g work.old }
    requires inner { Inner g work.old r c s }
    requires from_le_to { (from ≤ to) × (to ≤ at g work.old r c s) × (s2 + at g work.old r2 c2 s2 + to < g.depth + from) }
    requires r2_lt_rows { (r2 < g.rows) × (c2 < g.tags + 1) × ((r ≡ r2) → (c ≡ c2) → ⊥) }
    ensures { Written g work.old work.new r2 c2 s2 (word g work.old r2 c2 s2 ++ part from to (word g work.old r c s)) }
{
    for i in from..to {
        let tag = get(work, g, r, c, s + i + 1);
        push(work, g, r2, c2, s2, tag);
    }
}

// A word without its first n tags.
pub fn drop_front(work: &mut [u16], g: Grid, r: usize, c: usize, s: usize, n: usize)
    requires sized { Sized g work.old }
    requires inner { Inner g work.old r c s }
    requires n_bound { n ≤ at g work.old r c s }
    ensures { Written g work.old work.new r c s (drop n (word g work.old r c s)) }
{
    if n == 0 {
        return;
    }
    let len = get(work, g, r, c, s);
    for i in n..len {
        let tag = get(work, g, r, c, s + i + 1);
        put(work, g, r, c, s + (i - n) + 1, tag);
    }
    put(work, g, r, c, s, len - n);
}

// A whole word after another cell's.
pub fn append_word(
    work: &mut [u16],
    g: Grid,
    r: usize,
    c: usize,
    s: usize,
    r2: usize,
    c2: usize,
    s2: usize,
)
    requires sized { Sized g work.old }
    requires inner { Inner g work.old r c s }
    requires s_bound { s2 + at g work.old r2 c2 s2 + at g work.old r c s < g.depth }
    requires r2_lt_rows { (r2 < g.rows) × (c2 < g.tags + 1) × ((r ≡ r2) → (c ≡ c2) → ⊥) }
    ensures { Written g work.old work.new r2 c2 s2 (word g work.old r2 c2 s2 ++ word g work.old r c s) }
{
    let n = get(work, g, r, c, s);
    append(work, g, r, c, s, 0, n, r2, c2, s2);
}

// How many tags one word has from a place on in common with the first `limit` of another.
pub fn common(
    work: &[u16],
    g: Grid,
    r: usize,
    c: usize,
    s: usize,
    from: usize,
    r2: usize,
    c2: usize,
    s2: usize,
    limit: usize,
) -> usize
    requires sized { Sized g work.now }
    requires inner { Inner g work.now r c s }
    requires inner_2 { Inner g work.now r2 c2 s2 }
    requires limit_bound { (from + limit ≤ at g work.now r c s) × (limit ≤ at g work.now r2 c2 s2) }
    ensures { result ≡ length (meet (drop from (word g work.now r c s)) (take limit (word g work.now r2 c2 s2))) }
{
    for i in 0..limit {
        let tag = get(work, g, r, c, s + (from + i) + 1);
        let other = get(work, g, r2, c2, s2 + i + 1);
        if tag != other {
            return i;
        }
    }
    limit
}

// Whether two words are equal.
pub fn same_words(
    work: &[u16],
    g: Grid,
    r: usize,
    c: usize,
    s: usize,
    r2: usize,
    c2: usize,
    s2: usize,
) -> bool
    requires sized { Sized g work.now }
    requires inner { Inner g work.now r c s }
    requires inner_2 { Inner g work.now r2 c2 s2 }
    ensures { Decides result (word g work.now r c s ≡ word g work.now r2 c2 s2) }
{
    let n = get(work, g, r, c, s);
    if n != get(work, g, r2, c2, s2) {
        return false;
    }
    common(work, g, r, c, s, 0, r2, c2, s2, n) == n
}

// So many states in the rows from a base on.
#[derive(Clone, Copy)]
pub struct Part {
    pub grid: Grid,
    pub base: usize,
    pub states: usize,
}

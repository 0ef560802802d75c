// The labels and the list of a search for a word of which two transducers make different words, in two slices of numbers. A word is stored by its last tag and the
// place of the word without it. Time O(s) for s labels to rename one, O(n) to write a word of n tags, O(1) for every other call.
#![tactic(auto)]

ghost use Rattle.std.specs.Prelude.{◌≡◌, ℕ, ◌+◌, ◌*◌, ◌≤◌, ◌<◌, List, [], ◌∷◌, ◌++◌, length, drop};
ghost use Rattle.agreement.specs.Search.{renamed};
ghost use Rattle.agreement.specs.Stored.{label_at, left_at, right_at, Chained, PairPut};
ghost use Rattle.listing.specs.Listing.{most_states_two, Labeled, Linked, StoredWords};

// The most states that two tables have together, and the numbers of a listed word.
pub const LABELS: usize = 2 * limits::STATES;

pub const NUMBERS: usize = 4;

// Each of so many states has its own number as its label.
pub fn number_labels(labels: &mut [usize], total: usize)
    requires { total ≤ length labels.old }
    ensures { Labeled labels.old labels.new total (λ x. x) }
{
    for (x, label) in labels[..total].iter_mut().enumerate() {
        *label = x;
    }
}

// The label `one` becomes `other`.
fn rename(labels: &mut [usize], total: usize, one: usize, other: usize)
    requires { total ≤ length labels.old }
    ensures { Labeled labels.old labels.new total (λ x. renamed one other (label_at labels.old x)) }
{
    for label in &mut labels[..total] {
        if *label == one {
            *label = other;
        }
    }
}

// The numbers of the n-th word.
fn put_pair(pairs: &mut [usize], n: usize, left: usize, right: usize, before: usize, tag: usize)
    requires { (n < most_states_two) × (4 * n + 4 ≤ length pairs.old) }
    ensures { PairPut pairs.old pairs.new n left right before tag }
{
    let at = NUMBERS * n;
    pairs[at..at + NUMBERS].copy_from_slice(&[left, right, before, tag]);
}

// The states that the j-th word leads to.
pub fn left_of(pairs: &[usize], j: usize) -> usize
    requires { (j < most_states_two) × (4 * j + 4 ≤ length pairs.now) }
    ensures { result ≡ left_at pairs.now j }
{
    pairs[NUMBERS * j]
}

pub fn right_of(pairs: &[usize], j: usize) -> usize
    requires { (j < most_states_two) × (4 * j + 4 ≤ length pairs.now) }
    ensures { result ≡ right_at pairs.now j }
{
    pairs[NUMBERS * j + 1]
}

// If the labels of x and y differ, the n-th word is listed, and the label of y becomes that of x: how many words are listed.
pub fn link(
    labels: &mut [usize],
    pairs: &mut [usize],
    total: usize,
    n: usize,
    x: usize,
    y: usize,
    left: usize,
    right: usize,
    before: usize,
    tag: usize,
) -> usize
    requires { (total ≤ length labels.old) × (x < total) × (y < total) × (n < most_states_two) × (4 * n + 4 ≤ length pairs.old) }
    ensures { Linked labels.old pairs.old labels.new pairs.new total n x y left right before tag result }
{
    let one = labels[y];
    let other = labels[x];
    if one == other {
        return n;
    }
    put_pair(pairs, n, left, right, before, tag);
    rename(labels, total, one, other);
    n + 1
}

// How many tags the j-th of n words has.
fn word_length(pairs: &[usize], n: usize, k: usize, j: usize) -> usize
    requires { StoredWords k n pairs.now × (j < n) }
    ensures { (word : ℕ → List ℕ) → Chained k n word pairs.now → result ≡ length (word j) }
{
    let mut at = j;
    let mut long = 0;
    while 0 < at {
        at = pairs[NUMBERS * at + 2];
        long += 1;
    }
    long
}

// The j-th of n words, which has so many tags, to the front of `out`.
fn write_word(pairs: &[usize], n: usize, k: usize, j: usize, long: usize, out: &mut [u8])
    requires { StoredWords k n pairs.now × (j < n) × (long ≤ length out.old) × ((word : ℕ → List ℕ) → Chained k n word pairs.now → long ≡ length (word j)) }
    ensures { (word : ℕ → List ℕ) → Chained k n word pairs.now → out.new ≡ word j ++ drop (length (word j)) out.old }
{
    let mut at = j;
    let mut left = long;
    while 0 < at {
        left -= 1;
        out[left] = encoder::byte(pairs[NUMBERS * at + 3]);
        at = pairs[NUMBERS * at + 2];
    }
}

// The j-th of n words with one tag more, to the front of `out`: its length.
pub fn write_sentence(
    pairs: &[usize],
    n: usize,
    k: usize,
    j: usize,
    tag: usize,
    out: &mut [u8],
) -> usize
    requires { StoredWords k n pairs.now × (j < n) × (tag < k) × (n ≤ length out.old) }
    ensures { (word : ℕ → List ℕ) → Chained k n word pairs.now → (result ≡ length (word j ++ (tag ∷ []))) × (out.new ≡ (word j ++ (tag ∷ [])) ++ drop result out.old) }
{
    let long = word_length(pairs, n, k, j);
    write_word(pairs, n, k, j, long, out);
    out[long] = encoder::byte(tag);
    long + 1
}

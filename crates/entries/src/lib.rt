// What is read off the entries of a table's index, and the numbers that stand for them in a loaded table: of a word, and of where a step leads.
// Time O(1), for the first state that rests O(k s) with k tags and s states, and for the tags of a longer word O(w) with w of them.
#![tactic(auto)]

ghost use Rattle.std.specs.Prelude.{◌≡◌, ℕ, ◌+◌, ◌*◌, ◌≤◌, ◌<◌, List, length};
ghost use Rattle.std.proofs.lemmas.List.Edits.{sets};
ghost use Rattle.limits.specs.declared.Limits.{Limits};
ghost use Rattle.words.specs.Decides.{Decides};
ghost use Rattle.steps.specs.Entry.{TagsAt};
ghost use Rattle.decoder.specs.Index.{Loaded};
ghost use Rattle.loaded.specs.Numbers.{entry, behind, first_resting, next_at};
ghost use Rattle.entries.specs.State.{RestsIn, Stays, Base};

use steps::{Size, base_of, count_of, tag_of};

// Whether the step on a puts out a alone and leads back to the state whose steps' entries begin at `base`.
fn stays(e: u64, base: usize, a: usize) -> bool
    ensures { Decides result (Stays e base a) }
{
    base_of(e) == base && count_of(e) == 1 && usize::from(tag_of(e)) == a
}

// Whether the state whose entries begin at `cell` holds nothing, puts out each tag as it is, and stays.
fn rests(index: &[u64], k: usize, cell: usize) -> bool
    requires { cell + k < length index.now }
    ensures { Decides result (RestsIn index.now k cell) }
{
    count_of(index[cell]) == 0 && (0..k).all(|a| stays(index[cell + 1 + a], cell + 1, a))
}

// Where the entries of the steps of the first state that rests begin; if none does, where those of one more state would.
pub fn first_resting(index: &[u64], size: Size) -> usize
    requires { size.states * (size.tags + 1) ≤ length index.now }
    ensures { (lim : Limits) (bs : List ℕ) (l : Loaded lim bs size.tags index.now) → length l.table ≡ size.states → result ≡ first_resting l.table size.states 0 * (size.tags + 1) + 1 }
{
    let mut cell = 0;
    for _q in 0..size.states {
        if rests(index, size.tags, cell) {
            break;
        }
        cell += size.tags + 1;
    }
    cell + 1
}

// The number of a word: its tags are each second byte from `from`.
pub fn word_number(table: &[u8], from: usize, count: usize, place: usize) -> u32
    requires { (from + 2 * count ≤ length table.now + 1) × (count < 0x100) × (place < 0x1000000) }
    ensures { (w : List ℕ) → length w ≡ count → TagsAt table.now from w → result ≡ entry place w }
{
    if 3 < count {
        return (count + 0x100 * place) as u32;
    }
    if count == 0 {
        return 0;
    }
    let one = count + 0x100 * usize::from(table[from]);
    if count == 1 {
        return one as u32;
    }
    let two = one + 0x10000 * usize::from(table[from + 2]);
    if count == 2 {
        return two as u32;
    }
    (two + 0x1000000 * usize::from(table[from + 4])) as u32
}

// How many tags of a word stand behind the rows.
pub fn behind_of(count: usize) -> usize
    ensures { ((w : List ℕ) → length w ≡ count → result ≡ length (behind w)) × (result ≤ count) }
{
    if 3 < count { count } else { 0 }
}

// Where a step leads: a row has two numbers for each entry of its state.
pub fn next_place(base: usize, rested: usize) -> u32
    requires { (1 ≤ base) × (base < 0x10000) }
    ensures { (k q rest : ℕ) → Base k q base → Base k rest rested → result ≡ next_at k rest q }
{
    if base == rested {
        return loaded::RESTING;
    }
    (2 * base - 1) as u32
}

// The number of a word of one tag.
pub fn single(tag: u8) -> u32
    ensures { result ≡ 1 + 0x100 * tag }
{
    1 + 0x100 * u32::from(tag)
}

// The tags of a word of more than three, each second byte from `from`, to the numbers from `at`.
pub fn put_tags(table: &[u8], from: usize, count: usize, loaded: &mut [u32], at: usize)
    requires { (from + 2 * count ≤ length table.now + 1) × (3 < count → at + count ≤ length loaded.old) }
    ensures { (w : List ℕ) → length w ≡ count → TagsAt table.now from w → loaded.new ≡ sets loaded.old at (behind w) }
{
    if count <= 3 {
        return;
    }
    for j in 0..count {
        loaded[at + j] = u32::from(table[from + 2 * j]);
    }
}

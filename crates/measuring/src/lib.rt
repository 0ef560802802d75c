// How many numbers a table has, from its index, and whether they fit into a slice. Time O(k s) for k tags and s states.
#![tactic(auto)]

ghost use Rattle.std.specs.Prelude.{◌≡◌, ℕ, ◌+◌, ◌*◌, ◌≤◌, ◌<◌, List, length};
ghost use Rattle.limits.specs.Limits.{most_tags, most_states};
ghost use Rattle.limits.specs.declared.Limits.{Limits};
ghost use Rattle.words.specs.Decides.{Decides};
ghost use Rattle.transducers.specs.Table.{row};
ghost use Rattle.tables.specs.Bytes.{encode};
ghost use Rattle.decoder.specs.Index.{Loaded};
ghost use Rattle.loaded.specs.Numbers.{row_behind, numbers};

use entries::behind_of;
use steps::{Size, count_of};

// How many tags of a state's words stand behind the rows.
fn measure_row(index: &[u64], k: usize, cell: usize) -> usize
    requires { (cell + k < length index.now) × (k ≤ most_tags) }
    ensures { ((lim : Limits) (bs : List ℕ) (l : Loaded lim bs k index.now) (q : ℕ) → q < length l.table → cell ≡ q * (k + 1) → result ≡ length (row_behind (row l.table q))) × (result ≤ 12544) }
{
    let mut total = behind_of(count_of(index[cell]));
    for a in 0..k {
        total += behind_of(count_of(index[cell + 1 + a]));
    }
    total
}

// How many numbers a table has.
fn measure(index: &[u64], size: Size) -> usize
    requires { (size.states * (size.tags + 1) ≤ length index.now) × (size.tags ≤ most_tags) × (size.states ≤ most_states) }
    ensures { (lim : Limits) (bs : List ℕ) (l : Loaded lim bs size.tags index.now) → length l.table ≡ size.states → result ≡ length (numbers size.tags l.table) }
{
    let mut total = 1 + size.states * (2 * size.tags + 2);
    for q in 0..size.states {
        total += measure_row(index, size.tags, q * (size.tags + 1));
    }
    total
}

// Whether a table's numbers have room. As many as it has bytes are always enough, and then they need not be counted.
pub fn fits(index: &[u64], size: Size, bytes: usize, room: usize) -> bool
    requires { (size.states * (size.tags + 1) ≤ length index.now) × (size.tags ≤ most_tags) × (size.states ≤ most_states) }
    ensures { (lim : Limits) (bs : List ℕ) (l : Loaded lim bs size.tags index.now) → length l.table ≡ size.states → bytes ≡ length (encode size.tags l.table) → Decides result (length (numbers size.tags l.table) ≤ room) }
{
    bytes <= room || measure(index, size) <= room
}

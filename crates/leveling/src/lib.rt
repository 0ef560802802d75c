// Whether the steps of a table are balanced, from the counts in its index.
#![tactic(auto)]

ghost use Rattle.std.specs.Prelude.{ℕ, ◌+◌, ◌*◌, ◌≤◌, ◌<◌, length};
ghost use Rattle.words.specs.Decides.{Decides};
ghost use Rattle.leveling.specs.Level.{Level, Linked};

use steps::{Size, base_of, count_of};

// Whether the step on a puts out one tag more than the state holds, less what the next state holds.
fn level_step(index: &[u64], cell: usize, a: usize) -> bool
    requires { (cell + a + 1 < length index.now) × Linked index.now cell a }
    ensures { Decides result (Level index.now cell a) }
{
    let e = index[cell + 1 + a];
    let next = base_of(e);
    let put = count_of(e);
    let holds = count_of(index[next - 1]);
    let held = count_of(index[cell]);
    put + holds == held + 1
}

fn level_row(index: &[u64], cell: usize, k: usize) -> bool
    requires { (cell + k < length index.now) × ((a : ℕ) → a < k → Linked index.now cell a) }
    ensures { Decides result ((a : ℕ) → a < k → Level index.now cell a) }
{
    for a in 0..k {
        if !level_step(index, cell, a) {
            return false;
        }
    }
    true
}

pub fn level_rows(index: &[u64], size: Size) -> bool
    requires { (size.states * (size.tags + 1) ≤ length index.now) × ((q a : ℕ) → q < size.states → a < size.tags → Linked index.now (q * (size.tags + 1)) a) }
    ensures { Decides result ((q a : ℕ) → q < size.states → a < size.tags → Level index.now (q * (size.tags + 1)) a) }
{
    for q in 0..size.states {
        if !level_row(index, q * (size.tags + 1), size.tags) {
            return false;
        }
    }
    true
}

// The leftmost occurrence of a pattern: where it begins.
#![tactic(auto)]

ghost use Rattle.std.specs.Prelude.{◌+◌, ◌≤◌, ◌<◌, length, drop};
ghost use Rattle.words.specs.Word.{prefix};
ghost use Rattle.places.specs.Places.{Places, Free, FoundWithin};
ghost use Rattle.leftmost.specs.Leftmost.{Found};

use places::{BLOCK, WIDE};

// How far a search may go from `from` on, up to `to`, past blocks of 32 places at none of which u begins.
fn pass(s: &[u8], from: usize, to: usize, u: &[u8]) -> usize
    requires { Places u.now s.now from to }
    ensures { (from ≤ result) × (result ≤ to) × Free u.now s.now from result }
{
    let mut i = from;
    while i + WIDE <= to {
        if places::may_begin::<WIDE, false>(s, i, u) {
            return i;
        }
        i += WIDE;
    }
    i
}

// The first place from `from` up to `to` at which u begins. It looks closer only at 16 places where it cannot pass, and place by place only if u
// may begin there; the last block may overlap the one before it.
fn sweep(s: &[u8], from: usize, to: usize, u: &[u8]) -> Option<usize>
    requires places { Places u.now s.now from to }
    requires from_bound { from + 16 ≤ to }
    ensures { FoundWithin u.now s.now from to result }
{
    let mut i = from;
    while i < to {
        let passed = pass(s, i, to, u);
        let block = passed.min(to - BLOCK);
        if places::may_begin::<BLOCK, true>(s, block, u) {
            if let Some(at) = places::seek(s, block, block + BLOCK, u) {
                return Some(at);
            }
        }
        i = passed + BLOCK;
    }
    None
}

// The same. It looks at four places a round for u's first tag, and place by place where it stands.
fn seek_front(s: &[u8], from: usize, to: usize, u: &[u8]) -> Option<usize>
    requires { Places u.now s.now from to }
    ensures { FoundWithin u.now s.now from to result }
{
    let first = u[0];
    let mut i = from;
    while i + 4 <= to {
        if s[i] == first || s[i + 1] == first || s[i + 2] == first || s[i + 3] == first {
            if let Some(at) = places::seek(s, i, i + 4, u) {
                return Some(at);
            }
        }
        i += 4;
    }
    places::seek(s, i, to, u)
}

// The same. Fewer places than a block has are left to `seek_front`. Of more the first one is tried before all: behind a match the next often begins
// there.
fn search(s: &[u8], from: usize, to: usize, u: &[u8]) -> Option<usize>
    requires { Places u.now s.now from to }
    ensures { FoundWithin u.now s.now from to result }
{
    if to - from < BLOCK {
        return seek_front(s, from, to, u);
    }
    if places::begins(s, from, u) {
        return Some(from);
    }
    sweep(s, from, to, u)
}

// The least place at which u begins in the part of s from `from` on, counted in the part; or nowhere.
pub fn find(s: &[u8], from: usize, u: &[u8]) -> Option<usize>
    requires { (0 < length u.now) × (from ≤ length s.now) }
    ensures { Found (prefix u.now) (drop from s.now) result }
{
    let n = u.len();
    if s.len() - from < n {
        return None;
    }
    let i = search(s, from, s.len() - n + 1, u)?;
    Some(i - from)
}

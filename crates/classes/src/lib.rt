// The leftmost match of a pattern with sets (document 02, W9). A pattern is a row of tags and, up to its last set, a row of sets, 0 where a tag stands.
#![tactic(auto)]

ghost use Rattle.std.specs.Prelude.{◌≡◌, ◌+◌, ◌≤◌, ◌<◌, length, take, drop};
ghost use Rattle.limits.specs.Limits.{longest_pattern};
ghost use Rattle.cascades.specs.Pattern.{fits};
ghost use Rattle.cascades.specs.Value.{places};
ghost use Rattle.leftmost.specs.Leftmost.{Found};

use cascades::{accepts, set_at};
use limits::PATTERN;

// Whether the pattern u, with the first n of the sets, begins at the place i of s. It stops at the first tag that is not accepted.
fn begins(s: &[u8], i: usize, u: &[u8], sets: &[u64; PATTERN], n: usize) -> bool
    requires { (i + length u.now ≤ length s.now) × (n ≤ longest_pattern) × (length sets.now ≡ longest_pattern) }
    ensures { result ≡ fits (places u.now (take n sets.now)) (drop i s.now) }
{
    for j in 0..u.len() {
        let set = set_at(sets, n, j);
        if !accepts(u[j], set, s[j + i]) {
            return false;
        }
    }
    true
}

// The least place at which that pattern begins in the part of s from `from` on, counted in the part; or nowhere.
pub fn find(s: &[u8], from: usize, u: &[u8], sets: &[u64; PATTERN], n: usize) -> Option<usize>
    requires { (0 < length u.now) × (from ≤ length s.now) × (n ≤ longest_pattern) × (length sets.now ≡ longest_pattern) }
    ensures { Found (fits (places u.now (take n sets.now))) (drop from s.now) result }
{
    let room = s.len() - from;
    if room < u.len() {
        return None;
    }
    let places = room - u.len() + 1;
    for i in 0..places {
        if begins(s, from + i, u, sets, n) {
            return Some(i);
        }
    }
    None
}

// The matches still alive of a pattern with sets, kept as bits, one for each matched length (document 02, W9): the states of such a rule's
// transducer as numbers, and where a step leads from each.
// Time O(1) for a step, after O(k l) for the masks of k tags and a pattern of l places; space is a mask for each tag.
// Baeza-Yates and Gonnet's shift-and, for 002, definition 2: a state of the string matching automaton is a set of matched lengths.
#![tactic(auto)]

ghost use Rattle.std.specs.Prelude.{◌≡◌, ◌+◌, ◌*◌, ◌^◌, ◌≤◌, ◌<◌, length, take};
ghost use Rattle.limits.specs.Limits.{longest_pattern, most_tags};
ghost use Rattle.cascades.specs.Value.{kind_of, places};
ghost use Rattle.minimal.specs.Bits.{accepting, alive_states, alive_fired};
ghost use Rattle.alive.specs.Alive.{bit, Masks, stepped, Longest, leads};

use cascades::{accepts, set_at};
use limits::{PATTERN, TAGS};

// A mask of the first j places, and the bit of the place j where that accepts the tag.
fn with_place(mask: u16, j: usize, accepted: bool) -> u16
    requires { (mask < 2 ^ j) × (j < longest_pattern) }
    ensures { result ≡ mask + bit accepted * 2 ^ j }
{
    if accepted {
        return mask | (1 << j);
    }
    mask
}

// The places of the pattern u, with the first n of the sets, that accept the tag a: the lowest bit is for the first place.
fn mask_of(u: &[u8], sets: &[u64; PATTERN], n: usize, a: u8) -> u16
    requires { (length u.now ≤ longest_pattern) × (n ≤ longest_pattern) × (length sets.now ≡ longest_pattern) }
    ensures { result ≡ accepting (places u.now (take n sets.now)) a }
{
    let mut mask = 0;
    for (j, tag) in u.iter().enumerate() {
        let set = set_at(sets, n, j);
        mask = with_place(mask, j, accepts(*tag, set, a));
    }
    mask
}

// The masks of the first so many tags.
pub fn masks_of(u: &[u8], sets: &[u64; PATTERN], n: usize, tags: usize) -> [u16; TAGS]
    requires { (length u.now ≤ longest_pattern) × (n ≤ longest_pattern) × (length sets.now ≡ longest_pattern) × (tags ≤ most_tags) }
    ensures { Masks (places u.now (take n sets.now)) tags result }
{
    let mut masks = [0; TAGS];
    for a in 0..tags {
        masks[a] = mask_of(u, sets, n, a as u8);
    }
    masks
}

// The matches alive after a tag: shifted by one, the new start put in, and masked by the places that accept the tag.
pub fn step(alive: u16, mask: u16) -> u16
    requires { alive < 2 ^ 15 }
    ensures { result ≡ stepped alive mask }
{
    ((alive << 1) | 1) & mask
}

// The longest match alive: the number's binary length.
pub fn longest(alive: u16) -> usize
    ensures { Longest alive result }
{
    (u16::BITS - alive.leading_zeros()) as usize
}

// How many states the transducer has where the pattern has n places: the sets of matched lengths below n, and one behind a match, unless the rule
// begins again there.
pub fn count_alive(everywhere: bool, n: usize) -> u16
    requires { (0 < n) × (n ≤ longest_pattern) }
    ensures { result ≡ alive_states (kind_of everywhere) n }
{
    let sets = 1 << (n - 1);
    if everywhere {
        return sets;
    }
    sets + 1
}

// The state after a match.
fn fired_alive(everywhere: bool, n: usize) -> u16
    requires { (0 < n) × (n ≤ longest_pattern) }
    ensures { result ≡ alive_fired (kind_of everywhere) n }
{
    if everywhere {
        return 0;
    }
    1 << (n - 1)
}

// Where the tag a leads from a state, `next` being alive then, in a pattern of n places: the start after an end tag, the same state after a
// match.
pub fn leads(alive: u16, next: u16, n: usize, everywhere: bool, a: usize, end: usize) -> u16
    requires { (0 < n) × (n ≤ longest_pattern) × (alive < 2 ^ n) × (next < 2 ^ n) }
    ensures { result ≡ leads (kind_of everywhere) n end alive next a }
{
    if a == end {
        return 0;
    }
    if longest(alive) == n {
        return alive;
    }
    if longest(next) == n {
        return fired_alive(everywhere, n);
    }
    next
}

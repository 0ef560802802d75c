// Rules and cascades: definitions and laws in specs/ and proofs/, a rule as one value, and the places of a pattern.
#![tactic(auto)]

ghost use Rattle.std.specs.Prelude.{◌≡◌, ◌≤◌, length, take, get_or};
ghost use Rattle.limits.specs.Limits.{longest_pattern};
ghost use Rattle.cascades.specs.Pattern.{member, accepts};
ghost use Rattle.cascades.specs.Value.{class_of};

use limits::PATTERN;

// A rule. The first `length` tags of the row are its pattern, 0 at a set; the first `sets` places may be sets, which stand beside. specs/Value.antt
// says which rule it is.
#[derive(Clone, Copy)]
pub struct Rule {
    pub everywhere: bool,
    pub row: [u8; PATTERN],
    pub length: usize,
    pub sets: usize,
    pub place: usize,
    pub tag: u8,
}

// Whether the tag is in the set: one shift and one mask.
pub fn member(set: u64, a: u8) -> bool
    ensures { result ≡ member set a }
{
    if 63 < a {
        return false;
    }
    (set >> a) & 1 == 1
}

// Whether a place accepts the tag a: the place is a set, or the tag b.
pub fn accepts(b: u8, set: u64, a: u8) -> bool
    ensures { result ≡ accepts (class_of b set) a }
{
    if set == 0 {
        return b == a;
    }
    member(set, a)
}

// The set at the place j of a pattern that has sets at its first n places only, 0 for none.
pub fn set_at(sets: &[u64; PATTERN], n: usize, j: usize) -> u64
    requires { (n ≤ longest_pattern) × (length sets.now ≡ longest_pattern) }
    ensures { result ≡ get_or (take n sets.now) j 0 }
{
    if j < n {
        return sets[j];
    }
    0
}

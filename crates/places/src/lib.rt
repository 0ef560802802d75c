// Whether a pattern begins at a place of a sentence, and the first of some places at which it does.
#![tactic(auto)]

ghost use Rattle.std.specs.Prelude.{◌≡◌, false, ◌+◌, ◌≤◌, length, drop};
ghost use Rattle.words.specs.Word.{prefix};
ghost use Rattle.places.specs.Places.{Free, Places, FoundWithin};

// How many places one look takes.
pub const WIDE: usize = 32;

// How many a closer one takes.
pub const BLOCK: usize = 16;

// Whether the pattern u begins at the place i of s. It stops at the first difference.
pub fn begins(s: &[u8], i: usize, u: &[u8]) -> bool
    requires { i + length u.now ≤ length s.now }
    ensures { result ≡ prefix u.now (drop i s.now) }
{
    for j in 0..u.len() {
        if s[j + i] != u[j] {
            return false;
        }
    }
    true
}

// Whether u may begin at one of N places from `from` on: where it answers no, u begins at none of them. It looks at all of them for u's first and
// last tag, and in a close look for its second too. With no branch between them that can be done at once.
pub fn may_begin<const N: usize, const CLOSE: bool>(s: &[u8], from: usize, u: &[u8]) -> bool
    requires { Places u.now s.now from (from + N) }
    ensures { result ≡ false → Free u.now s.now from (from + N) }
{
    let w = u.len() - 1;
    let v = w.min(1);
    let first = u[0];
    let second = u[v];
    let last = u[w];
    let mut may = false;
    for j in 0..N {
        may |= (s[from + j] == first)
            & (s[from + j + w] == last)
            & (!CLOSE | (s[from + j + v] == second));
    }
    may
}

// The first place from `from` up to `to` at which u begins; place by place.
pub fn seek(s: &[u8], from: usize, to: usize, u: &[u8]) -> Option<usize>
    requires { Places u.now s.now from to }
    ensures { FoundWithin u.now s.now from to result }
{
    let w = u.len() - 1;
    let first = u[0];
    let last = u[w];
    for i in from..to {
        if s[i] == first && s[i + w] == last && begins(s, i, u) {
            return Some(i);
        }
    }
    None
}

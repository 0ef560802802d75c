// A worklist: a list of numbers below n in the notes of n rows, each number at most once, 0 first. Composition and numbering search
// breadth first with it: the members are visited in their order, and what a visit comes to is entered.
// The i-th row notes the i-th member, and the row of each number one more than its place in the list, or 0 if it is not there.
// Time O(n) to begin, O(1) for every other call.
#![tactic(auto)]

ghost use Rattle.std.specs.Prelude.{◌≡◌, ◌<◌};
ghost use Rattle.worklist.specs.Worklist.{member_of, mark_of, Slots, Worklist, Begun, Entered, Member};

use workspace::{Grid, MARK, MEMBER, clear_notes, get, put};

// The list of 0.
pub fn begin(work: &mut [u16], g: Grid, base: usize, n: usize)
    requires { Slots g work.old base n }
    ensures { Begun g work.old work.new base n }
{
    clear_notes(work, g, base, n, MARK);
    put(work, g, base, g.tags, MEMBER, 0);
    put(work, g, base, g.tags, MARK, 1);
}

// Stays: a mark is a number, 0 for none, and no Option of a place: the work slice has 16-bit entries (fixed memory).
// s is appended if it is not there: the length then.
pub fn enter(work: &mut [u16], g: Grid, base: usize, n: usize, len: usize, s: usize) -> usize
    requires worklist { Worklist g work.old base n len }
    requires s_lt_n { s < n }
    ensures { Entered g work.old work.new base n len s result }
{
    let seen = get(work, g, base + s, g.tags, MARK);
    if seen != 0 {
        return len;
    }
    put(work, g, base + len, g.tags, MEMBER, s);
    put(work, g, base + s, g.tags, MARK, len + 1);
    len + 1
}

// The i-th member.
pub fn member(work: &[u16], g: Grid, base: usize, n: usize, len: usize, i: usize) -> usize
    requires worklist { Worklist g work.now base n len }
    requires i_lt_len { i < len }
    ensures { (result ≡ member_of g work.now base i) × (result < n) }
{
    get(work, g, base + i, g.tags, MEMBER)
}

// The place of the member s.
pub fn place_of(work: &[u16], g: Grid, base: usize, n: usize, len: usize, s: usize) -> usize
    requires worklist { Worklist g work.now base n len }
    requires s_lt_n { (s < n) × (mark_of g work.now base s ≡ 0 → ⊥) }
    ensures { Member g work.now base len s result }
{
    get(work, g, base + s, g.tags, MARK) - 1
}

// The states of the transducer of a rule without sets as numbers, and where a step leads from each, in time O(1).
// From 002, definition 2, after Simon's string matching automaton: the states are the prefixes of the pattern, here by their lengths.
#![tactic(auto)]

ghost use Rattle.std.specs.Prelude.{◌≡◌, ◌≤◌, ◌<◌, length};
ghost use Rattle.limits.specs.Limits.{longest_pattern};
ghost use Rattle.cascades.specs.Value.{kind_of};
ghost use Rattle.minimal.specs.OneRule.{states};
ghost use Rattle.workspace.specs.Cells.{Sized};
ghost use Rattle.matcher.specs.Next.{goes, restarts, Behind};

use cascades::Rule;
use workspace::{Grid, NEXT, get};

// The state after the tag a where the first j tags were matched: one tag more, or where the row `back`, that of their longest border, leads.
pub fn next_of(work: &[u16], g: Grid, back: usize, u: &[u8], j: usize, a: usize) -> usize
    requires sized { Sized g work.now }
    requires behind { Behind g work.now back u.now j }
    requires depth_nonzero { (0 < g.depth) × (a < g.tags) × (j ≤ length u.now) }
    ensures { result ≡ goes u.now j a }
{
    if j == u.len() {
        return j;
    }
    if usize::from(u[j]) == a {
        return j + 1;
    }
    if j == 0 {
        return 0;
    }
    get(work, g, back, a, NEXT)
}

// The state after the tag a: the start after an end tag, and after a match where no state lies behind it.
pub fn restart(next: usize, a: usize, end: usize, count: usize) -> usize
    ensures { result ≡ restarts count end a next }
{
    if a == end {
        return 0;
    }
    if next == count { 0 } else { next }
}

// How many states the rule's transducer has: one behind a whole match, unless it begins again there.
pub fn count_states(rule: Rule) -> usize
    requires { rule.length ≤ longest_pattern }
    ensures { result ≡ states (kind_of rule.everywhere) rule.length }
{
    if rule.everywhere {
        return rule.length;
    }
    rule.length + 1
}

// Whether a book can be used with an end tag (document 02, W1): 14.
#![tactic(auto)]

ghost use Rattle.std.specs.Prelude.{◌≡◌, ℕ, ◌≤◌, ◌<◌, List, length, take};
ghost use Rattle.limits.specs.Limits.{most_rules, longest_pattern};
ghost use Rattle.cascades.specs.Pattern.{plain};
ghost use Rattle.cascades.specs.Rule.{ending};
ghost use Rattle.cascades.specs.Value.{places, rule_of, Formed};
ghost use Rattle.cascades.specs.Ending.{before, misused, some_misused, bad_end};
ghost use Rattle.books.specs.Arrays.{arrays, rules_of, cascade_of};
ghost use Rattle.endings.specs.Usable.{Usable};

use books::Rules;
use cascades::{Rule, accepts, set_at};
use limits::PATTERN;

// Whether the tag stands before the last place of a pattern without sets. A loop, since with `contains` a rule takes nine nanoseconds more.
fn stands_before(u: &[u8], end: u8) -> bool
    ensures { result ≡ before end (plain u.now) }
{
    if u.len() == 0 {
        return false;
    }
    let last = u.len() - 1;
    for i in 0..last {
        if u[i] == end {
            return true;
        }
    }
    false
}

// Whether a place before the last of the pattern u, with the first n of the sets, accepts the tag.
fn accepts_before(u: &[u8], sets: &[u64; PATTERN], n: usize, end: u8) -> bool
    requires { (n ≤ longest_pattern) × (length sets.now ≡ longest_pattern) }
    ensures { result ≡ before end (places u.now (take n sets.now)) }
{
    if u.len() == 0 {
        return false;
    }
    for i in 0..u.len() - 1 {
        let set = set_at(sets, n, i);
        if accepts(u[i], set, end) {
            return true;
        }
    }
    false
}

// Whether a rule misuses the end tag: its pattern has it before its last place, which `early` tells, or the rule changes or makes it.
fn misuses(rule: Rule, early: bool, end: u8) -> bool
    requires { (rule.place < rule.length) × (rule.length ≤ longest_pattern) × (length rule.row ≡ longest_pattern) }
    ensures { (ss : List ℕ) → Formed rule ss → early ≡ before end (rule_of rule ss).pattern → result ≡ misused end (rule_of rule ss) }
{
    early || rule.row[rule.place] == end || rule.tag == end
}

// Whether some rule does, where none has a set.
fn some_misuses(rules: &Rules, sets: &[[u64; PATTERN]], m: usize, end: u8) -> bool
    requires { Usable m (arrays rules.now sets.now) × (length sets.now ≡ 0) }
    ensures { result ≡ some_misused end (rules_of (arrays rules.now sets.now) m) }
{
    for i in 0..m {
        let rule = reader::rule_at(rules, sets, i);
        // A copy, so that the rule's other parts can stay in registers.
        let row = rule.row;
        let early = stands_before(&row[..rule.length], end);
        if misuses(rule, early, end) {
            return true;
        }
    }
    false
}

// The same where rules may have sets: some of the first m rules does if some before the last does, or the last. It calls itself so that it stays a
// call: in the place of the call, its loop would take the registers of the one above.
fn some_misuses_sets(rules: &Rules, sets: &[[u64; PATTERN]], m: usize, end: u8) -> bool
    requires { Usable m (arrays rules.now sets.now) × (length sets.now ≡ most_rules) }
    ensures { result ≡ some_misused end (rules_of (arrays rules.now sets.now) m) }
{
    if m == 0 {
        return false;
    }
    let last = m - 1;
    if some_misuses_sets(rules, sets, last, end) {
        return true;
    }
    let rule = reader::rule_at(rules, sets, last);
    let early = accepts_before(&rule.row[..rule.length], &sets[last], rule.sets, end);
    misuses(rule, early, end)
}

// Whether 14 is given for the end tag.
pub fn bad_end(k: u8, rules: &Rules, sets: &[[u64; PATTERN]], m: usize, end: u8) -> bool
    requires { Usable m (arrays rules.now sets.now) }
    ensures { result ≡ bad_end (ending end (cascade_of k (arrays rules.now sets.now) m)) }
{
    if end == limits::NO_END {
        return false;
    }
    if k <= end {
        return true;
    }
    if sets.len() == 0 {
        return some_misuses(rules, sets, m, end);
    }
    some_misuses_sets(rules, sets, m, end)
}

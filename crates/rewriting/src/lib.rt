// A rule applied to a sentence: its leftmost match gets the new tag, and so do those behind it where it fires everywhere. Beside each tag that it
// rewrites it puts its number, if there is room for numbers.
#![tactic(auto)]

ghost use Rattle.std.specs.Prelude.{◌≡◌, ◌≤◌, ◌<◌, List, [], length, take, drop, set};
ghost use Rattle.limits.specs.Limits.{longest_pattern};
ghost use Rattle.cascades.specs.Pattern.{Class, fits, plain};
ghost use Rattle.cascades.specs.Value.{kind_of, rule_of, rule_with, places, Formed};
ghost use Rattle.cascades.specs.Spares.{Changes};
ghost use Rattle.cascades.specs.Rewrite.{apply};
ghost use Rattle.leftmost.specs.Leftmost.{Found};
ghost use Rattle.traces.specs.Trace.{mark};
ghost use Rattle.traces.specs.Note.{note};

use cascades::Rule;
use limits::PATTERN;

// A pattern as the code has it.
trait Pattern {
    // The pattern that it is.
    ghost pattern: { Self → List Class };

    fn len(&self) -> usize
        ensures { result ≡ length (pattern self.now) };

    // The least place at which it begins in the part of s from `from` on, counted in the part.
    fn find(&self, s: &[u8], from: usize) -> Option<usize>
        requires { (0 < length (pattern self.now)) × (from ≤ length s.now) }
        ensures { Found (fits (pattern self.now)) (drop from s.now) result };
}

// A row of tags. Its search is the quicker one.
#[derive(Clone, Copy)]
struct Tags<'a> {
    row: &'a [u8],
}

impl<'a> Pattern for Tags<'a> {
    ghost pattern = { λ p. plain p.row.now };

    fn len(&self) -> usize {
        self.row.len()
    }

    fn find(&self, s: &[u8], from: usize) -> Option<usize> {
        leftmost::find(s, from, self.row)
    }
}

// A row of tags whose first `count` places have sets, 0 for a tag.
#[derive(Clone, Copy)]
struct Sets<'a> {
    row: &'a [u8],
    sets: &'a [u64; PATTERN],
    count: usize,
    ghost count_inside: { count ≤ longest_pattern },
    ghost sets_long: { length sets.now ≡ longest_pattern },
}

impl<'a> Pattern for Sets<'a> {
    ghost pattern = { λ p. places p.row.now (take p.count p.sets.now) };

    fn len(&self) -> usize {
        self.row.len()
    }

    fn find(&self, s: &[u8], from: usize) -> Option<usize> {
        classes::find(s, from, self.row, self.sets, self.count)
    }
}

// The number x at a place, if it is one of v.
fn put(v: &mut [u8], at: usize, x: u8)
    ensures { v.new ≡ set v.old at x }
{
    if at < v.len() {
        v[at] = x;
    }
}

// The pattern's leftmost match in s gets the rule's tag at the rule's place. Where the rule fires everywhere, so does the leftmost match in the part
// behind it, and so on. Where a tag becomes another, x is put beside it.
fn rewrite<P: Pattern>(s: &mut [u8], v: &mut [u8], pattern: &P, rule: &Rule, x: u8)
    requires { Changes (rule_with (kind_of rule.now.everywhere) (P.pattern pattern.now) rule.now.place rule.now.tag) }
    ensures s { s.new ≡ apply (rule_with (kind_of rule.now.everywhere) (P.pattern pattern.now) rule.now.place rule.now.tag) s.old }
    ensures v { v.new ≡ note x s.old s.new v.old }
{
    let length = pattern.len();
    let mut from = 0;
    while let Some(place) = pattern.find(s, from) {
        let at = from + place + rule.place;
        s[at] = rule.tag;
        put(v, at, x);
        if !rule.everywhere {
            return;
        }
        from += place + length;
    }
}

// A rule without sets applied to s, and its number x put into v, which lies beside s, at the place of each of its matches.
pub fn apply_tags(s: &mut [u8], v: &mut [u8], rule: Rule, x: u8)
    requires { Formed rule [] × Changes (rule_of rule []) }
    ensures s { s.new ≡ apply (rule_of rule []) s.old }
    ensures v { v.new ≡ mark (length s.old) (rule_of rule []) x s.old v.old }
{
    // A copy, so that the rule's other parts can stay in registers while the row is searched for.
    let row = rule.row;
    let tags = Tags {
        row: &row[..rule.length],
    };
    rewrite(s, v, &tags, &rule, x);
}

// Any rule, with the row of its sets.
pub fn apply_sets(s: &mut [u8], v: &mut [u8], rule: Rule, sets: &[u64; PATTERN], x: u8)
    requires { Formed rule sets.now × (length sets.now ≡ longest_pattern) × Changes (rule_of rule sets.now) }
    ensures s { s.new ≡ apply (rule_of rule sets.now) s.old }
    ensures v { v.new ≡ mark (length s.old) (rule_of rule sets.now) x s.old v.old }
{
    // As above.
    let row = rule.row;
    let classes = Sets {
        row: &row[..rule.length],
        sets,
        count: rule.sets,
    };
    rewrite(s, v, &classes, &rule, x);
}

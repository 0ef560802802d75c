// A book's rules applied to a sentence where it stands, piece by piece. Beside it lies v, which gets the number of the last rule that rewrote each
// tag; a v of no length is for runs that want no numbers.
#![tactic(auto)]

ghost use Rattle.std.specs.Prelude.{◌≡◌, ℕ, ◌+◌, ◌≤◌, ◌<◌, length, drop, replicate};
ghost use Rattle.limits.specs.Limits.{no_end, most_rules};
ghost use Rattle.words.specs.Word.{Below};
ghost use Rattle.words.specs.Pieces.{piecewise};
ghost use Rattle.words.specs.Parts.{Begun};
ghost use Rattle.cascades.specs.Rewrite.{apply_all};
ghost use Rattle.books.specs.Arrays.{arrays, sets_at, rules_of};
ghost use Rattle.endings.specs.Usable.{Usable};
ghost use Rattle.traces.specs.Trace.{beside, trace_from, numbers_of};
ghost use Rattle.application.specs.Pieces.{FirstPiece};

use books::Rules;
use limits::{NO_END, PATTERN};

// The rules of the arrays from `from` on and before m, which have no sets, applied to s in order, and their numbers.
pub fn apply_tags(
    s: &mut [u8],
    v: &mut [u8],
    rules: &Rules,
    sets: &[[u64; PATTERN]],
    from: usize,
    m: usize,
)
    requires { Usable m (arrays rules.now sets.now) × (from ≤ m) × ((i : ℕ) → from ≤ i → i < m → sets_at (arrays rules.now sets.now) i ≡ 0) }
    ensures s { s.new ≡ apply_all (drop from (rules_of (arrays rules.now sets.now) m)) s.old }
    ensures v { v.new ≡ (trace_from (from + 1) (drop from (rules_of (arrays rules.now sets.now) m)) (beside s.old v.old)).numbers }
{
    for i in from..m {
        let rule = reader::rule_at(rules, sets, i);
        rewriting::apply_tags(s, v, rule, (i + 1) as u8);
    }
}

// The first m rules, which may have sets: those before the last, then the last. It calls itself so that it stays a call: in the place of the call,
// its search would take the registers of what goes on there.
fn apply_sets(s: &mut [u8], v: &mut [u8], rules: &Rules, sets: &[[u64; PATTERN]], m: usize)
    requires { Usable m (arrays rules.now sets.now) × (length sets.now ≡ most_rules) }
    ensures s { s.new ≡ apply_all (rules_of (arrays rules.now sets.now) m) s.old }
    ensures v { v.new ≡ (trace_from 1 (rules_of (arrays rules.now sets.now) m) (beside s.old v.old)).numbers }
{
    if m == 0 {
        return;
    }
    let last = m - 1;
    apply_sets(s, v, rules, sets, last);
    let rule = reader::rule_at(rules, sets, last);
    if rule.sets == 0 {
        apply_tags(s, v, rules, sets, last, m);
    } else {
        rewriting::apply_sets(s, v, rule, &sets[last], m as u8);
    }
}

// The first m rules of the arrays, applied to s in order, and their numbers.
fn apply_rules(s: &mut [u8], v: &mut [u8], rules: &Rules, sets: &[[u64; PATTERN]], m: usize)
    requires { Usable m (arrays rules.now sets.now) }
    ensures s { s.new ≡ apply_all (rules_of (arrays rules.now sets.now) m) s.old }
    ensures v { v.new ≡ (trace_from 1 (rules_of (arrays rules.now sets.now) m) (beside s.old v.old)).numbers }
{
    if sets.len() == 0 {
        apply_tags(s, v, rules, sets, 0, m);
    } else {
        apply_sets(s, v, rules, sets, m);
    }
}

// The same as apply_rules, where no tag has a number at first.
fn apply_afresh(s: &mut [u8], v: &mut [u8], rules: &Rules, sets: &[[u64; PATTERN]], m: usize)
    requires { Usable m (arrays rules.now sets.now) }
    ensures s { s.new ≡ apply_all (rules_of (arrays rules.now sets.now) m) s.old }
    ensures v { v.new ≡ (trace_from 1 (rules_of (arrays rules.now sets.now) m) (beside s.old (replicate (length v.old) 0))).numbers }
{
    v.fill(0);
    apply_rules(s, v, rules, sets, m);
}

// How long the first piece is: up to an end tag with it, or all.
fn first_piece(s: &[u8], end: u8) -> usize
    ensures { FirstPiece s.now end result }
{
    for (i, a) in s.iter().enumerate() {
        if *a == end {
            return i + 1;
        }
    }
    s.len()
}

// The rules to the first piece, and how long it is.
fn apply_first(
    s: &mut [u8],
    v: &mut [u8],
    end: u8,
    rules: &Rules,
    sets: &[[u64; PATTERN]],
    m: usize,
) -> usize
    requires { Usable m (arrays rules.now sets.now) }
    ensures s { Begun (piecewise end (apply_all (rules_of (arrays rules.now sets.now) m))) (piecewise end (apply_all (rules_of (arrays rules.now sets.now) m))) s.old s.new s.new result }
    ensures v { length v.old ≡ length s.old → Begun (piecewise end (numbers_of (rules_of (arrays rules.now sets.now) m))) (piecewise end (numbers_of (rules_of (arrays rules.now sets.now) m))) s.old s.new v.new result }
    ensures some { 0 < length s.old → 0 < result }
{
    let n = first_piece(s, end);
    let noted = n.min(v.len());
    apply_afresh(&mut s[..n], &mut v[..noted], rules, sets, m);
    n
}

// The rules to each piece.
fn apply_pieces(
    s: &mut [u8],
    v: &mut [u8],
    end: u8,
    rules: &Rules,
    sets: &[[u64; PATTERN]],
    m: usize,
)
    requires { Usable m (arrays rules.now sets.now) }
    ensures s { s.new ≡ piecewise end (apply_all (rules_of (arrays rules.now sets.now) m)) s.old }
    ensures v { length v.old ≡ length s.old → v.new ≡ piecewise end (numbers_of (rules_of (arrays rules.now sets.now) m)) s.old }
{
    let mut from = 0;
    while from < s.len() {
        let noted = from.min(v.len());
        from += apply_first(&mut s[from..], &mut v[noted..], end, rules, sets, m);
    }
}

// The first m rules of the arrays to each piece of s, which holds tags: without an end tag it is one piece. Where v has as many places as s, it
// gets the number of the last rule that rewrote each tag, 0 for none.
pub fn apply_book(
    s: &mut [u8],
    v: &mut [u8],
    end: u8,
    rules: &Rules,
    sets: &[[u64; PATTERN]],
    m: usize,
)
    requires usable { Usable m (arrays rules.now sets.now) }
    requires below { Below no_end s.old }
    ensures s { s.new ≡ piecewise end (apply_all (rules_of (arrays rules.now sets.now) m)) s.old }
    ensures v { length v.old ≡ length s.old → v.new ≡ piecewise end (numbers_of (rules_of (arrays rules.now sets.now) m)) s.old }
{
    if end == NO_END {
        apply_afresh(s, v, rules, sets, m);
    } else {
        apply_pieces(s, v, end, rules, sets, m);
    }
}

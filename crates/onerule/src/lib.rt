// The transducer of one rule: it does what the rule does, and without sets is the smallest one that does.
// Time O(k s + w) for k tags, s states and w tags in the words that are written; space is the rows of the result, for a pattern of l tags l + 1, with
// sets 2^(l - 1) + 1, one less for an everywhere rule; and a number for each prefix, with sets for each tag.
// From 002, definition 2; with sets after Baeza-Yates and Gonnet. `matcher` has its states, and where their steps lead, without sets, and `alive`
// with sets; `outputs` has its words.
#![tactic(auto)]

ghost use Rattle.std.specs.Prelude.{ℕ, ◌≡◌, ◌+◌, ◌^◌, ◌≤◌, ◌<◌, false, List, [], length, take, get_or};
ghost use Rattle.limits.specs.Limits.{longest_pattern, most_tags};
ghost use Rattle.cascades.specs.Pattern.{word, plain};
ghost use Rattle.cascades.specs.Value.{kind_of, rule_of, Formed};
ghost use Rattle.cascades.specs.Ending.{before};
ghost use Rattle.minimal.specs.OneRule.{states, one_rule};
ghost use Rattle.workspace.specs.declared.Grid.{Grid};
ghost use Rattle.workspace.specs.Cells.{Sized};
ghost use Rattle.workspace.specs.Holds.{Stepped, Rowed, Filling};
ghost use Rattle.outputs.specs.Words.{Room};
ghost use Rattle.onerule.specs.declared.Pattern.{Pattern};
ghost use Rattle.onerule.specs.Rule.{by_lengths, by_bits, afresh, Ruled};
ghost use Rattle.onerule.specs.States.{Numbered, speaking, Within, Before, in_lengths, in_bits, ByLengths, ByBits};

use alive::{count_alive, leads, longest, masks_of, step};
use borders::find_borders;
use cascades::Rule;
use limits::{PATTERN, TAGS};
use matcher::{count_states, next_of, restart};
use outputs::{write_final, write_output};
use workspace::{Grid, NEXT, put};

// A rule's pattern with the place that its new tag is for, and the tag that ends a sentence.
#[derive(Clone, Copy)]
struct Pattern<'a> {
    tags: &'a [u8],
    place: usize,
    tag: u8,
    end: usize,
}

// How much of the pattern is matched before a tag and after it, and the state that it leads to.
#[derive(Clone, Copy)]
struct Step {
    matched: usize,
    grown: usize,
    next: usize,
}

// The states of a rule's transducer as numbers: how much of the pattern is matched in each, which tells what is held at the end, and what a tag does.
trait States {
    ghost numbered: { Self → Pattern → Numbered };

    ghost Serves: { Self → Grid → Pattern → Type 0 };

    fn matched(&self, g: Grid, pattern: Pattern, q: usize) -> usize
        requires serves { Serves self.now g pattern }
        requires q_in { q < (numbered self.now pattern).count }
        ensures { result ≡ (numbered self.now pattern.entry).matched q };

    // The rows of the states before q are written.
    fn step(&self, work: &[u16], g: Grid, base: usize, pattern: Pattern, q: usize, a: usize) -> Step
        requires serves { Serves self.now g pattern }
        requires sized { Sized g work.now × (0 < g.depth) }
        requires q_in { (q < (numbered self.now pattern).count) × (base + q < g.rows) × (a < g.tags) }
        requires earlier { Before g work.now base (numbered self.now pattern) q }
        ensures matched { result.matched ≡ (numbered self.now pattern.entry).matched q }
        ensures grown { result.grown ≡ (numbered self.now pattern.entry).grown q a }
        ensures next { (result.next ≡ (numbered self.now pattern.entry).next q a) × (result.next < 0x10000) };
}

// A rule without sets: a state is how much is matched, and goes by the row of its longest border.
#[derive(Clone, Copy)]
struct Lengths<'a> {
    borders: &'a [usize],
    count: usize,
}

impl States for Lengths<'_> {
    ghost numbered = { λ s p. in_lengths s.count p.tags.now p.end };

    ghost Serves = { λ s g p. ByLengths s.count s.borders.now p.tags.now p.end };

    fn matched(&self, _g: Grid, _pattern: Pattern, q: usize) -> usize {
        q
    }

    fn step(
        &self,
        work: &[u16],
        g: Grid,
        base: usize,
        pattern: Pattern,
        q: usize,
        a: usize,
    ) -> Step {
        let back = base + self.borders[q];
        let grown = next_of(work, g, back, pattern.tags, q, a);
        let next = restart(grown, a, pattern.end, self.count);
        Step {
            matched: q,
            grown,
            next,
        }
    }
}

// A rule with sets: a state is the matches that are alive, as bits.
#[derive(Clone, Copy)]
struct Bits<'a> {
    masks: &'a [u16; TAGS],
    everywhere: bool,
}

impl States for Bits<'_> {
    ghost numbered = { λ s p. in_bits (kind_of s.everywhere) s.masks.now p.tags.now p.end };

    ghost Serves = { λ s g p. ByBits g.tags s.masks.now p.tags.now };

    fn matched(&self, _g: Grid, _pattern: Pattern, q: usize) -> usize {
        longest(q as u16)
    }

    fn step(
        &self,
        _work: &[u16],
        _g: Grid,
        _base: usize,
        pattern: Pattern,
        q: usize,
        a: usize,
    ) -> Step {
        let alive = q as u16;
        let then = step(alive, self.masks[a]);
        let to = leads(
            alive,
            then,
            pattern.tags.len(),
            self.everywhere,
            a,
            pattern.end,
        );
        Step {
            matched: longest(alive),
            grown: longest(then),
            next: usize::from(to),
        }
    }
}

fn write_step<S: States>(
    work: &mut [u16],
    g: Grid,
    base: usize,
    pattern: Pattern,
    states: &S,
    q: usize,
    a: usize,
)
    requires room { Room g work.old pattern.tags.now pattern.place }
    requires serves { S.Serves states.now g pattern }
    requires within { Within (length pattern.tags.now) (S.numbered states.now pattern) }
    requires q_in { (q < (S.numbered states.now pattern).count) × (base + q < g.rows) × (a < g.tags) }
    requires earlier { Before g work.old base (S.numbered states.now pattern) q }
    ensures { Stepped g work.old work.new (base + q) a ((speaking (S.numbered states.now pattern.entry) pattern.entry).next q a) ((speaking (S.numbered states.now pattern.entry) pattern.entry).output q a) }
{
    let to = states.step(work, g, base, pattern, q, a);
    write_output(
        work,
        g,
        base + q,
        pattern.tags,
        pattern.place,
        pattern.tag,
        to.matched,
        a,
        to.grown,
    );
    put(work, g, base + q, a, NEXT, to.next);
}

// To the row base + q the state q.
fn write_state<S: States>(
    work: &mut [u16],
    g: Grid,
    base: usize,
    pattern: Pattern,
    states: &S,
    q: usize,
)
    requires room { Room g work.old pattern.tags.now pattern.place }
    requires serves { S.Serves states.now g pattern }
    requires within { Within (length pattern.tags.now) (S.numbered states.now pattern) }
    requires q_in { (q < (S.numbered states.now pattern).count) × (base + q < g.rows) }
    requires earlier { Before g work.old base (S.numbered states.now pattern) q }
    ensures { Rowed g work.old work.new (base + q) (speaking (S.numbered states.now pattern.entry) pattern.entry) q }
{
    for a in 0..g.tags {
        write_step(work, g, base, pattern, states, q, a);
    }
    let matched = states.matched(g, pattern, q);
    write_final(
        work,
        g,
        base + q,
        pattern.tags,
        pattern.place,
        pattern.tag,
        matched,
    );
}

// All so many states to the rows from `base`.
fn write_states<S: States>(
    work: &mut [u16],
    g: Grid,
    base: usize,
    pattern: Pattern,
    states: &S,
    count: usize,
)
    requires room { Room g work.old pattern.tags.now pattern.place }
    requires serves { S.Serves states.now g pattern }
    requires within { Within (length pattern.tags.now) (S.numbered states.now pattern) }
    requires count_is { (count ≡ (S.numbered states.now pattern).count) × (base + count ≤ g.rows) }
    ensures { Filling g work.old work.new base count (speaking (S.numbered states.now pattern.entry) pattern.entry) count }
{
    for q in 0..count {
        write_state(work, g, base, pattern, states, q);
    }
}

// The states of a rule without sets: how many they are.
fn write_by_lengths(work: &mut [u16], g: Grid, base: usize, rule: Rule, end: usize) -> usize
    requires row_len { (length rule.row ≡ longest_pattern) × (rule.length ≤ longest_pattern) }
    requires room { Room g work.old (take rule.length rule.row) rule.place }
    requires length_bound { (base + states (kind_of rule.everywhere) rule.length ≤ g.rows) × (before end (plain (take rule.length rule.row)) ≡ false) }
    ensures value { result ≡ states (kind_of rule.everywhere) rule.length }
    ensures filling { Filling g work.old work.new base result (afresh end (by_lengths result (take rule.length rule.row) rule.place rule.tag)) result }
{
    let row = rule.row;
    let length = rule.length;
    let count = count_states(rule);
    let mut borders = [0; PATTERN + 1];
    find_borders(&row[..length], &mut borders);
    let pattern = Pattern {
        tags: &row[..length],
        place: rule.place,
        tag: rule.tag,
        end,
    };
    let states = Lengths {
        borders: &borders,
        count,
    };
    write_states(work, g, base, pattern, &states, count);
    count
}

// The states of a rule with sets: how many they are.
fn write_by_bits(
    work: &mut [u16],
    g: Grid,
    base: usize,
    rule: Rule,
    sets: [u64; PATTERN],
    end: usize,
) -> usize
    requires formed { Formed rule sets × (0 < rule.sets) }
    requires room { Room g work.old (word (rule_of rule sets).pattern) rule.place }
    requires tags_le_most_tags { (g.tags ≤ most_tags) × (base + (one_rule (rule_of rule sets)).count ≤ g.rows) × (before end (rule_of rule sets).pattern ≡ false) }
    ensures { Ruled g work.old work.new base result end (rule_of rule sets) }
{
    let row = rule.row;
    let length = rule.length;
    let count = usize::from(count_alive(rule.everywhere, length));
    let masks = masks_of(&row[..length], &sets, rule.sets, g.tags);
    let pattern = Pattern {
        tags: &row[..length],
        place: rule.place,
        tag: rule.tag,
        end,
    };
    let states = Bits {
        masks: &masks,
        everywhere: rule.everywhere,
    };
    write_states(work, g, base, pattern, &states, count);
    count
}

// The transducer of the rule with the sets of row i, which begins afresh after an end tag, to the rows from `base`: the number of its states.
pub fn write_rule(
    work: &mut [u16],
    g: Grid,
    base: usize,
    rule: Rule,
    sets: &[[u64; PATTERN]],
    i: usize,
    end: usize,
) -> usize
    requires formed { Formed rule (get_or sets.now i []) }
    requires room { Room g work.old (word (rule_of rule (get_or sets.now i [])).pattern) rule.place }
    requires tags_le_most_tags { (g.tags ≤ most_tags) × (base + (one_rule (rule_of rule (get_or sets.now i []))).count ≤ g.rows) × (before end (rule_of rule (get_or sets.now i [])).pattern ≡ false) }
    ensures { Ruled g work.old work.new base result end (rule_of rule (get_or sets.now i [])) }
{
    if rule.sets == 0 {
        return write_by_lengths(work, g, base, rule, end);
    }
    let row = sets[i];
    write_by_bits(work, g, base, rule, row, end)
}

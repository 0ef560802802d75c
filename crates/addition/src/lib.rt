// One more rule: the phases, one after the other.
#![tactic(auto)]

ghost use Rattle.std.specs.Prelude.{◌≤◌, [], get_or};
ghost use Rattle.limits.specs.Limits.{most_tags};
ghost use Rattle.cascades.specs.Value.{rule_of, Formed};
ghost use Rattle.addition.specs.Addition.{Addable, Added};

use cascades::Rule;
use limits::PATTERN;
use workspace::{Grid, Part};

// Adds the rule with the sets of row i to the table in the first n rows: the number of states. The table with the rule stands in the rows from 0 if they are no
// more than the ceiling. The composition is made in the rows from the ceiling, and there is room for it up to the rule's transducer, which has
// at most s states.
pub fn add_rule(
    work: &mut [u16],
    g: Grid,
    n: usize,
    ceiling: usize,
    s: usize,
    rule: Rule,
    sets: &[[u64; PATTERN]],
    i: usize,
    end: usize,
) -> usize
    requires formed { Formed rule (get_or sets.now i []) × (g.tags ≤ most_tags) }
    requires addable { Addable g work.old n ceiling s end (rule_of rule (get_or sets.now i [])) }
    ensures { Added g work.old work.new n ceiling end (rule_of rule (get_or sets.now i [])) result }
{
    let second = (s + 1) * ceiling;
    let m = onerule::write_rule(work, g, second, rule, sets, i, end);
    let count = compose::compose(work, g, 0, n, second, m, ceiling);
    let part = Part {
        grid: g,
        base: ceiling,
        states: count,
    };
    normalize::normalize(work, part);
    merge::merge(work, part);
    number::number(work, part, 0, ceiling)
}

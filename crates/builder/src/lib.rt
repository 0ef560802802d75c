// From the rules in the reader's arrays to the bytes of their table: the phases for each rule, then the encoder.
// Time is that of the phases on the table so far composed with one rule, once for each rule; space is the work slice.
#![tactic(auto)]

ghost use Rattle.std.specs.Prelude.{◌≤◌, ◌<◌, length};
ghost use Rattle.answers.specs.Answer.{Filled};
ghost use Rattle.answers.specs.Slice.{fitting};
ghost use Rattle.tables.specs.Bytes.{encode};
ghost use Rattle.compilation.specs.Compile.{built};
ghost use Rattle.cascades.specs.Rule.{ending};
ghost use Rattle.books.specs.Arrays.{arrays, cascade_of};
ghost use Rattle.workspace.specs.Cells.{Kept, InRows};
ghost use Rattle.workspace.specs.Holds.{Ready, table_at};
ghost use Rattle.builder.specs.Rules.{Compilable};
ghost use Rattle.builder.specs.Rows.{BuiltRows};

use answers::{Reason, Refusal};
use books::Rules;
use limits::{Limits, PATTERN};
use workspace::{Grid, Part};

// The bytes of the table in the first n rows, or 11.
fn finish(work: &[u16], g: Grid, n: usize, out: &mut [u8]) -> Result<usize, Refusal>
    requires ready { Ready g work.now 0 n }
    requires tags_bound { (g.tags < 0x100) × (g.depth ≤ 0x100) }
    ensures { Filled (fitting (length out.old) (encode g.tags (table_at g work.now 0 n))) out.old out.new result }
{
    let part = Part {
        grid: g,
        base: 0,
        states: n,
    };
    let size = encoder::measure(work, part);
    if out.len() < size {
        return Err(Refusal::Bare(Reason::ShortOutput));
    }
    Ok(encoder::write_table(work, part, out))
}

// The table of the first m rules of the arrays, whose transducers have at most so many states, in the first rows: how many, or 10.
pub fn build_rows(
    work: &mut [u16],
    g: Grid,
    ceiling: usize,
    end: usize,
    m: usize,
    rules: &Rules,
    sets: &[[u64; PATTERN]],
    states: usize,
    lim: Limits,
) -> Result<usize, Refusal>
    requires { Compilable lim g work.old ceiling states end m (arrays rules.now sets.now) }
    ensures built { BuiltRows g work.new ceiling (ending end (cascade_of g.tags (arrays rules.now sets.now) m)) result }
    ensures kept { Kept g work.old work.new (InRows 0 g.rows) }
{
    identity::write_identity(work, g);
    let mut n = 1;
    for i in 0..m {
        let rule = reader::rule_at(rules, sets, i);
        let count = addition::add_rule(work, g, n, ceiling, states, rule, sets, i, end);
        if ceiling < count {
            return Err(Refusal::AtRule(Reason::TooManyStates, i + 1));
        }
        n = count;
    }
    Ok(n)
}

// The same, and its bytes or 11.
pub fn build(
    work: &mut [u16],
    g: Grid,
    ceiling: usize,
    end: usize,
    m: usize,
    rules: &Rules,
    sets: &[[u64; PATTERN]],
    out: &mut [u8],
    states: usize,
    lim: Limits,
) -> Result<usize, Refusal>
    requires { Compilable lim g work.old ceiling states end m (arrays rules.now sets.now) }
    ensures gave { Filled (built ceiling (length out.old) (ending end (cascade_of g.tags (arrays rules.now sets.now) m))) out.old out.new result }
    ensures kept { Kept g work.old work.new (InRows 0 g.rows) }
{
    let n = build_rows(work, g, ceiling, end, m, rules, sets, states, lim)?;
    finish(work, g, n, out)
}

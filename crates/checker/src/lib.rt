// The check of a table against a book (document 02, W10): the book is read, then the table, the book's own table is built in the work slice, both are compared, and the
// work slice is wiped.
#![tactic(auto)]

ghost use Rattle.std.specs.Prelude.{◌≡◌, false, ◌+◌, ◌*◌, ◌≤◌, length};
ghost use Rattle.limits.specs.Limits.{InRange};
ghost use Rattle.cascades.specs.Rule.{ending};
ghost use Rattle.cascades.specs.Ending.{bad_end};
ghost use Rattle.books.specs.Arrays.{arrays, cascade_of};
ghost use Rattle.workspace.specs.Cells.{Kept, InRows};
ghost use Rattle.builder.specs.Rules.{Readable, Compilable};
ghost use Rattle.decoder.specs.Index.{Head};
ghost use Rattle.equivalence.specs.Both.{TablesOf, first, second};
ghost use Rattle.checking.specs.Check.{compared, checkable, checked, Answers, wiped};
ghost use Rattle.checker.specs.Ended.{pair_of, Judges, Given, Ended, after_book, after_end, after_table};

use answers::{Reason, Refusal};
use books::{Rules, Unread};
use checking::SHOWN;
use decoder::ENTRIES;
use equivalence::Both;
use limits::{Limits, PATTERN, RULES, STATES};
use steps::Size;
use workspace::Grid;

// 11; or whether both tables do the same.
fn judge(both: Both, out: &mut [u8]) -> Result<Option<usize>, Refusal>
    requires { TablesOf both }
    ensures { Judges both.entry.grid.tags (first both.entry) (second both.entry) out.old out.new result }
{
    if out.len() < SHOWN {
        return Err(Refusal::Bare(Reason::ShortOutput));
    }
    Ok(equivalence::compare(both, out))
}

// The book's table is built: 10, and the same.
fn check_built(
    table: &[u8],
    index: &[u64],
    work: &mut [u16],
    g: Grid,
    s: usize,
    end: usize,
    m: usize,
    rules: &Rules,
    sets: &[[u64; PATTERN]],
    states: usize,
    out: &mut [u8],
    lim: Limits,
) -> Result<Option<usize>, Refusal>
    requires { Compilable lim g work.old 256 states end m (arrays rules.now sets.now) × Given lim table.now g.tags s index.now }
    ensures said { Answers (compared (length out.old) (pair_of lim table.now (ending end (cascade_of g.tags (arrays rules.now sets.now) m)))) out.old out.new result }
    ensures kept { Kept g work.old work.new (InRows 0 g.rows) }
{
    let rows = builder::build_rows(work, g, STATES, end, m, rules, sets, states, lim)?;
    let both = Both {
        table,
        index,
        states: s,
        work,
        grid: g,
        rows,
        lim,
    };
    judge(both, out)
}

// The rules that have been read and a table over as many tags: 9, and the same. The work slice is zero again after it.
fn check_read(
    table: &[u8],
    index: &[u64],
    work: &mut [u16],
    s: usize,
    end: u8,
    k: u8,
    m: usize,
    rules: &Rules,
    sets: &[[u64; PATTERN]],
    out: &mut [u8],
    lim: Limits,
) -> Result<Option<usize>, Refusal>
    requires readable { Readable lim k 256 m (arrays rules.now sets.now) × Given lim table.now k s index.now }
    requires m_value { bad_end (ending end (cascade_of k (arrays rules.now sets.now) m)) ≡ false }
    ensures { Ended lim (after_table lim table.now (length work.old) (ending end (cascade_of k (arrays rules.now sets.now) m))) work.old work.new out.old out.new result }
{
    let some = reader::some_set(rules, sets, m);
    let states = limits::rule_states(lim, some);
    let g = compiler::grid_of(states, k, STATES, m, lim);
    let entries = compiler::entries_of(g);
    if work.len() < entries {
        return Err(Refusal::Bare(Reason::ShortWork));
    }
    let last = usize::from(end);
    let answer = check_built(
        table, index, work, g, s, last, m, rules, sets, states, out, lim,
    );
    compiler::wipe(work, entries);
    answer
}

// A table whose head is read, over t tags: 12, 20, and the same.
fn check_loaded(
    table: &[u8],
    index: &mut [u64],
    work: &mut [u16],
    size: Size,
    end: u8,
    k: u8,
    m: usize,
    rules: &Rules,
    sets: &[[u64; PATTERN]],
    out: &mut [u8],
    lim: Limits,
) -> Result<Option<usize>, Refusal>
    requires readable { Readable lim k 256 m (arrays rules.now sets.now) × Head lim table.now size.tags size.states × (size.states * (size.tags + 1) ≤ length index.old) }
    requires m_value { bad_end (ending end (cascade_of k (arrays rules.now sets.now) m)) ≡ false }
    ensures { Ended lim (after_end lim table.now (length work.old) (ending end (cascade_of k (arrays rules.now sets.now) m))) work.old work.new out.old out.new result }
{
    if !decoder::load(table, size, index, lim) {
        return Err(Refusal::Bare(Reason::BadTable));
    }
    if size.tags != usize::from(k) {
        return Err(Refusal::Bare(Reason::OtherTags));
    }
    check_read(
        table,
        index,
        work,
        size.states,
        end,
        k,
        m,
        rules,
        sets,
        out,
        lim,
    )
}

// The rules that have been read: 14, and the same.
fn check_rules(
    table: &[u8],
    work: &mut [u16],
    end: u8,
    k: u8,
    m: usize,
    rules: &Rules,
    sets: &[[u64; PATTERN]],
    out: &mut [u8],
    lim: Limits,
) -> Result<Option<usize>, Refusal>
    requires { Readable lim k 256 m (arrays rules.now sets.now) }
    ensures { Ended lim (after_book lim end table.now (length work.old) (cascade_of k (arrays rules.now sets.now) m)) work.old work.new out.old out.new result }
{
    if endings::bad_end(k, rules, sets, m, end) {
        return Err(Refusal::Bare(Reason::BadEnd));
    }
    let size = decoder::read_head(table, lim)?;
    let mut index = [0u64; ENTRIES];
    check_loaded(
        table, &mut index, work, size, end, k, m, rules, sets, out, lim,
    )
}

// A book with limits that are in their ranges: its refusals, and the same.
fn check_within(
    book: &[u8],
    end: u8,
    table: &[u8],
    work: &mut [u16],
    out: &mut [u8],
    lim: Limits,
) -> Result<Option<usize>, Refusal>
    requires { InRange lim }
    ensures { Ended lim (checkable lim book.now end table.now (length work.old)) work.old work.new out.old out.new result }
{
    let mut rules = Rules::new();
    let mut sets = [[0u64; PATTERN]; RULES];
    match reader::read_into(book, &mut rules, &mut sets, lim) {
        Ok(count) => check_rules(
            table,
            work,
            end,
            count.tags,
            count.rules,
            &rules,
            &sets,
            out,
            lim,
        ),
        Err(Unread::Refused(refusal)) => Err(refusal),
        Err(Unread::Sets) => unreachable!(),
    }
}

// None if a table and a book, whose sentences an end tag ends (255 for none), make the same of every sentence; else a sentence on which they differ stands at the
// front of `out`: how many tags it has. Or the refusal: 17, the book's, 14, 12, 20, 9, 10 or 11.
pub fn check_table(
    book: &[u8],
    end: u8,
    table: &[u8],
    work: &mut [u16],
    out: &mut [u8],
    lim: Limits,
) -> Result<Option<usize>, Refusal>
    ensures answer { Answers (checked lim book.now end table.now (length work.old) (length out.old)) out.old out.new result }
    ensures work { work.new ≡ wiped lim (checkable lim book.now end table.now (length work.old)) work.old }
{
    if limits::in_range(lim) {
        return check_within(book, end, table, work, out, lim);
    }
    Err(Refusal::Bare(Reason::BadLimit))
}

// The compile call: a book is read, the work slice laid out, the table built, and the work slice wiped.
#![tactic(auto)]

ghost use Rattle.std.specs.Prelude.{◌≡◌, false, ◌+◌, ◌*◌, ◌≤◌, ◌++◌, length, drop, replicate};
ghost use Rattle.answers.specs.Slice.{long_of, written};
ghost use Rattle.answers.specs.Answer.{outcome_of};
ghost use Rattle.limits.specs.Limits.{no_end, most_states, most_rules, most_tags, InRange};
ghost use Rattle.answers.specs.Outcome.{and_then};
ghost use Rattle.cascades.specs.Rule.{ending};
ghost use Rattle.cascades.specs.Ending.{bad_end};
ghost use Rattle.books.specs.Arrays.{arrays, cascade_of, SetRows};
ghost use Rattle.books.specs.Tried.{Tried};
ghost use Rattle.books.specs.Ending.{fitted};
ghost use Rattle.compilation.specs.Compile.{roomed, tested, compile_answer};
ghost use Rattle.builder.specs.Rules.{Readable};
ghost use Rattle.compiler.specs.Answer.{worked};
ghost use Rattle.compiler.specs.Rows.{grid_of};
ghost use Rattle.compiler.specs.Ended.{Ended};

use answers::{Reason, Refusal};
use books::{Rules, Unread};
use limits::{LEAST_DEPTH, Limits, PATTERN, RULES, STATES};
use workspace::Grid;

// The first n entries become zero.
pub fn wipe(work: &mut [u16], n: usize)
    requires { n ≤ length work.old }
    ensures { work.new ≡ replicate n 0 ++ drop n work.old }
{
    work[..n].fill(0);
}

// The rows of the work slice for a ceiling and m rules over k tags, whose transducers have at most so many states.
pub fn grid_of(states: usize, k: u8, ceiling: usize, m: usize, lim: Limits) -> Grid
    requires { (ceiling ≤ most_states) × (m ≤ most_rules) × InRange lim × (states ≤ 129) }
    ensures { result ≡ grid_of lim states k ceiling m }
{
    let holds = lim.pattern - 1;
    Grid {
        rows: 2 * (states + 1) * ceiling,
        tags: usize::from(k),
        depth: holds * m + LEAST_DEPTH,
    }
}

// Their entries.
pub fn entries_of(g: Grid) -> usize
    requires { (g.rows ≤ 66560) × (g.tags ≤ most_tags) × (g.depth ≤ 120) }
    ensures { result ≡ g.rows * (g.tags + 1) * g.depth }
{
    g.rows * (g.tags + 1) * g.depth
}

// The first m rules of the arrays over k tags: the table's bytes, 9, 10 or 11. The work slice is zero again after it.
fn compile_read(
    work: &mut [u16],
    ceiling: usize,
    end: u8,
    k: u8,
    m: usize,
    rules: &Rules,
    sets: &[[u64; PATTERN]],
    out: &mut [u8],
    lim: Limits,
) -> Result<usize, Refusal>
    requires readable { Readable lim k ceiling m (arrays rules.now sets.now) }
    requires m_value { bad_end (ending end (cascade_of k (arrays rules.now sets.now) m)) ≡ false }
    ensures { Ended lim (roomed lim ceiling (length work.old) (ending end (cascade_of k (arrays rules.now sets.now) m))) ceiling work.old work.new out.old out.new result }
{
    let some = reader::some_set(rules, sets, m);
    let states = limits::rule_states(lim, some);
    let g = grid_of(states, k, ceiling, m, lim);
    let entries = entries_of(g);
    if work.len() < entries {
        return Err(Refusal::Bare(Reason::ShortWork));
    }
    let last = usize::from(end);
    let answer = builder::build(work, g, ceiling, last, m, rules, sets, out, states, lim);
    wipe(work, entries);
    answer
}

// The same, and 14 before it.
fn compile_rules(
    work: &mut [u16],
    ceiling: usize,
    end: u8,
    k: u8,
    m: usize,
    rules: &Rules,
    sets: &[[u64; PATTERN]],
    out: &mut [u8],
    lim: Limits,
) -> Result<usize, Refusal>
    requires { Readable lim k ceiling m (arrays rules.now sets.now) }
    ensures { Ended lim (and_then (fitted end (cascade_of k (arrays rules.now sets.now) m)) (roomed lim ceiling (length work.old))) ceiling work.old work.new out.old out.new result }
{
    if endings::bad_end(k, rules, sets, m, end) {
        return Err(Refusal::Bare(Reason::BadEnd));
    }
    compile_read(work, ceiling, end, k, m, rules, sets, out, lim)
}

// Compiles a book with limits and a ceiling that are in their ranges: the book's refusals, and the same. Where the rows have no room for sets and the
// book has one, nothing is done.
fn compile_book(
    book: &[u8],
    end: u8,
    ceiling: usize,
    work: &mut [u16],
    out: &mut [u8],
    sets: &mut [[u64; PATTERN]],
    lim: Limits,
) -> Result<usize, Unread>
    requires { InRange lim × (1 ≤ ceiling) × (ceiling ≤ most_states) × SetRows sets.old }
    ensures { Tried result (Ended lim (tested lim book.now end ceiling (length work.old)) ceiling work.old work.new out.old out.new) ((length sets.old ≡ 0) × (work.new ≡ work.old) × (out.new ≡ out.old)) }
{
    let mut rules = Rules::new();
    let count = reader::read_into(book, &mut rules, sets, lim)?;
    let size = compile_rules(
        work,
        ceiling,
        end,
        count.tags,
        count.rules,
        &rules,
        sets,
        out,
        lim,
    )?;
    Ok(size)
}

// The same with room for sets.
fn compile_sets(
    book: &[u8],
    end: u8,
    ceiling: usize,
    work: &mut [u16],
    out: &mut [u8],
    lim: Limits,
) -> Result<usize, Refusal>
    requires { InRange lim × (1 ≤ ceiling) × (ceiling ≤ most_states) }
    ensures { Ended lim (tested lim book.now end ceiling (length work.old)) ceiling work.old work.new out.old out.new result }
{
    let mut sets = [[0u64; PATTERN]; RULES];
    match compile_book(book, end, ceiling, work, out, &mut sets[..], lim) {
        Ok(size) => Ok(size),
        Err(Unread::Refused(refusal)) => Err(refusal),
        Err(Unread::Sets) => unreachable!(),
    }
}

// Compiles a book with limits that are in their ranges: 8, the book's refusals, and the same. There is room for sets only if the book has one.
fn compile_within(
    book: &[u8],
    end: u8,
    ceiling: usize,
    work: &mut [u16],
    out: &mut [u8],
    lim: Limits,
) -> Result<usize, Refusal>
    requires { InRange lim }
    ensures { Ended lim (tested lim book.now end ceiling (length work.old)) ceiling work.old work.new out.old out.new result }
{
    if ceiling < 1 {
        return Err(Refusal::Bare(Reason::BadCeiling));
    }
    if STATES < ceiling {
        return Err(Refusal::Bare(Reason::BadCeiling));
    }
    let mut none = [[0u64; PATTERN]; 0];
    match compile_book(book, end, ceiling, work, out, &mut none[..], lim) {
        Ok(size) => Ok(size),
        Err(Unread::Refused(refusal)) => Err(refusal),
        Err(Unread::Sets) => compile_sets(book, end, ceiling, work, out, lim),
    }
}

// Compiles a book whose sentences an end tag ends (255 for none): the number of bytes of its smallest table, which stands at the front of
// `out`; or the refusal, 17 before all others.
pub fn compile_ending(
    book: &[u8],
    end: u8,
    ceiling: usize,
    work: &mut [u16],
    out: &mut [u8],
    lim: Limits,
) -> Result<usize, Refusal>
    ensures answer { outcome_of result ≡ long_of (compile_answer lim book.now end ceiling (length work.old) (length out.old)) }
    ensures out { out.new ≡ written (compile_answer lim book.now end ceiling (length work.old) (length out.old)) out.old }
    ensures work { work.new ≡ worked lim ceiling (tested lim book.now end ceiling (length work.old)) work.old }
{
    if limits::in_range(lim) {
        return compile_within(book, end, ceiling, work, out, lim);
    }
    Err(Refusal::Bare(Reason::BadLimit))
}

// The same with no end tag.
pub fn compile(
    book: &[u8],
    ceiling: usize,
    work: &mut [u16],
    out: &mut [u8],
    lim: Limits,
) -> Result<usize, Refusal>
    ensures answer { outcome_of result ≡ long_of (compile_answer lim book.now no_end ceiling (length work.old) (length out.old)) }
    ensures out { out.new ≡ written (compile_answer lim book.now no_end ceiling (length work.old) (length out.old)) out.old }
    ensures work { work.new ≡ worked lim ceiling (tested lim book.now no_end ceiling (length work.old)) work.old }
{
    compile_ending(book, limits::NO_END, ceiling, work, out, lim)
}

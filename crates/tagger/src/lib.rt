// The run of a book over a sentence. The calls with and without rule numbers are one body: the slice v, which lies beside the sentence, gets the
// number of the last rule that rewrote each tag, and has no length where a call wants no numbers.
#![tactic(auto)]

ghost use Rattle.std.specs.Prelude.{◌≡◌, ◌≤◌, min, length};
ghost use Rattle.limits.specs.Limits.{InRange, no_end, standard};
ghost use Rattle.answers.specs.Slice.{written};
ghost use Rattle.books.specs.Arrays.{SetRows};
ghost use Rattle.sentences.specs.Run.{Ran};
ghost use Rattle.tagging.specs.Run.{book_run};
ghost use Rattle.tagging.specs.Numbers.{book_numbers};
ghost use Rattle.books.specs.Tried.{Tried};

use answers::{Reason, Refusal};
use books::{Rules, Unread};
use limits::{Limits, PATTERN, RULES, STANDARD};
use running::{run_pieces, run_rules};

// Runs a book over a sentence, with limits in their ranges, where the slices that get a result have at least `room` bytes. The reader is lent a
// slice of all of the book: the slice itself would be copied in memory, and the reader would wait for the copy.
fn run_within(
    book: &[u8],
    end: u8,
    sentence: &[u8],
    out: &mut [u8],
    v: &mut [u8],
    room: usize,
    sets: &mut [[u64; PATTERN]],
    lim: Limits,
) -> Result<usize, Unread>
    requires { (room ≤ length out.old) × InRange lim × SetRows sets.old }
    ensures out { Tried result (Ran (book_run lim book.now end sentence.now room) sentence.now out.old out.new) ((length sets.old ≡ 0) × (out.new ≡ out.old)) }
    ensures v { Tried result (λ answer. (room ≤ length v.old → v.new ≡ written (book_numbers lim book.now end sentence.now room) v.old)) (v.new ≡ v.old) }
{
    let mut rules = Rules::new();
    let n = book.len();
    let count = reader::read_into(&book[..n], &mut rules, sets, lim)?;
    let changes = run_pieces(
        sentence,
        out,
        v,
        room,
        count.tags,
        end,
        count.rules,
        &rules,
        sets,
    )?;
    Ok(changes)
}

// The same with room for sets.
fn run_again(
    book: &[u8],
    end: u8,
    sentence: &[u8],
    out: &mut [u8],
    v: &mut [u8],
    room: usize,
    lim: Limits,
) -> Result<usize, Refusal>
    requires { (room ≤ length out.old) × InRange lim }
    ensures out { Ran (book_run lim book.now end sentence.now room) sentence.now out.old out.new result }
    ensures v { room ≤ length v.old → v.new ≡ written (book_numbers lim book.now end sentence.now room) v.old }
{
    let mut sets = [[0u64; PATTERN]; RULES];
    match run_within(book, end, sentence, out, v, room, &mut sets[..], lim) {
        Ok(changes) => Ok(changes),
        Err(Unread::Refused(refusal)) => Err(refusal),
        Err(Unread::Sets) => unreachable!(),
    }
}

// Few books have sets: the calls below run a book without room for them, and again where it has one. Those that take an end tag each say so for
// themselves: the answer of a function between would be copied in memory.

// Runs a book over a sentence, piece by piece where an end tag ends them: the number of changed tags, with the result in the first bytes of
// `out`, and in those of `rules` the number of the last rule that rewrote each tag, 0 for none; or the refusal.
pub fn run_book_rules(
    book: &[u8],
    end: u8,
    sentence: &[u8],
    out: &mut [u8],
    rules: &mut [u8],
    lim: Limits,
) -> Result<usize, Refusal>
    ensures out { Ran (book_run lim book.now end sentence.now (min (length out.old) (length rules.old))) sentence.now out.old out.new result }
    ensures rules { rules.new ≡ written (book_numbers lim book.now end sentence.now (min (length out.old) (length rules.old))) rules.old }
{
    if limits::in_range(lim) {
        let room = out.len().min(rules.len());
        let mut none = [[0u64; PATTERN]; 0];
        let got = run_within(book, end, sentence, out, rules, room, &mut none[..], lim);
        return match got {
            Ok(changes) => Ok(changes),
            Err(Unread::Refused(refusal)) => Err(refusal),
            Err(Unread::Sets) => run_again(book, end, sentence, out, rules, room, lim),
        };
    }
    Err(Refusal::Bare(Reason::BadLimit))
}

// The same without the numbers.
pub fn run_book_ending(
    book: &[u8],
    end: u8,
    sentence: &[u8],
    out: &mut [u8],
    lim: Limits,
) -> Result<usize, Refusal>
    ensures { Ran (book_run lim book.now end sentence.now (length out.old)) sentence.now out.old out.new result }
{
    if limits::in_range(lim) {
        let mut v = [0u8; 0];
        let room = out.len();
        let mut none = [[0u64; PATTERN]; 0];
        let got = run_within(
            book,
            end,
            sentence,
            out,
            &mut v[..],
            room,
            &mut none[..],
            lim,
        );
        return match got {
            Ok(changes) => Ok(changes),
            Err(Unread::Refused(refusal)) => Err(refusal),
            Err(Unread::Sets) => run_again(book, end, sentence, out, &mut v[..], room, lim),
        };
    }
    Err(Refusal::Bare(Reason::BadLimit))
}

// The same with the limits of document 01, which are in their ranges.
pub fn run_book_standard(
    book: &[u8],
    end: u8,
    sentence: &[u8],
    out: &mut [u8],
) -> Result<usize, Refusal>
    ensures { Ran (book_run standard book.now end sentence.now (length out.old)) sentence.now out.old out.new result }
{
    let mut v = [0u8; 0];
    let room = out.len();
    let mut none = [[0u64; PATTERN]; 0];
    let got = run_within(
        book,
        end,
        sentence,
        out,
        &mut v[..],
        room,
        &mut none[..],
        STANDARD,
    );
    match got {
        Ok(changes) => Ok(changes),
        Err(Unread::Refused(refusal)) => Err(refusal),
        Err(Unread::Sets) => run_again(book, end, sentence, out, &mut v[..], room, STANDARD),
    }
}

// Runs a book with sets over a sentence without an end tag, with limits in their ranges.
fn run_without_end(
    book: &[u8],
    sentence: &[u8],
    out: &mut [u8],
    lim: Limits,
) -> Result<usize, Refusal>
    requires { InRange lim }
    ensures { Ran (book_run lim book.now no_end sentence.now (length out.old)) sentence.now out.old out.new result }
{
    let mut v = [0u8; 0];
    let room = out.len();
    run_again(book, limits::NO_END, sentence, out, &mut v[..], room, lim)
}

// The same for every book, without room for sets at first.
fn run_whole(book: &[u8], sentence: &[u8], out: &mut [u8], lim: Limits) -> Result<usize, Refusal>
    requires { InRange lim }
    ensures { Ran (book_run lim book.now no_end sentence.now (length out.old)) sentence.now out.old out.new result }
{
    let mut rules = Rules::new();
    let none = [[0u64; PATTERN]; 0];
    match reader::read_plain_into(book, &mut rules, &none[..], lim) {
        Ok(count) => run_rules(sentence, out, count.tags, count.rules, &rules, &none[..]),
        Err(Unread::Refused(refusal)) => Err(refusal),
        Err(Unread::Sets) => run_without_end(book, sentence, out, lim),
    }
}

// The same with any limits. It has no test for an end tag, and is the quicker for it.
pub fn run_book(book: &[u8], sentence: &[u8], out: &mut [u8], lim: Limits) -> Result<usize, Refusal>
    ensures { Ran (book_run lim book.now no_end sentence.now (length out.old)) sentence.now out.old out.new result }
{
    if limits::in_range(lim) {
        return run_whole(book, sentence, out, lim);
    }
    Err(Refusal::Bare(Reason::BadLimit))
}

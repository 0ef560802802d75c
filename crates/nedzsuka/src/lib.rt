// The functions for C (document 01, "host door"): compile and the run of a book, both also with an end tag, the check of a table, the starter table, the run that tells
// the rules, the runs of a table and of a loaded one, loading, the two readers and typing, each answering one number. Compile and the runs of a
// book and of a table are there with a host's limits too; all others have those of document 01.
// include/nedzsuka.h tells a host what they promise.
#![tactic(auto)]

ghost use Rattle.std.specs.Prelude.{◌≡◌, min, length};
ghost use Rattle.limits.specs.Limits.{no_end, standard, limits_of};
ghost use Rattle.answers.specs.Slice.{long_of, written};
ghost use Rattle.sentences.specs.Run.{changed};
ghost use Rattle.tagging.specs.Run.{book_run};
ghost use Rattle.tagging.specs.Numbers.{book_numbers};
ghost use Rattle.tables.specs.Run.{table_run};
ghost use Rattle.loaded.specs.Run.{loaded_run, load_answer};
ghost use Rattle.compilation.specs.Compile.{tested, compile_answer};
ghost use Rattle.compiler.specs.Answer.{worked};
ghost use Rattle.checking.specs.Check.{checkable, checked, wiped};
ghost use Rattle.verdicts.specs.Numbered.{Numbered};
ghost use Rattle.starter.specs.Starter.{starter_answer};
ghost use Rattle.packing.specs.Packed.{packed, packed_byte};
ghost use Rattle.sizing.specs.Sizes.{book_sizes, table_sizes};
ghost use Rattle.typing.specs.Typing.{opened, give, look, close};
ghost use Rattle.handing.specs.Typing.{sentence_of, opened_as, opened_on, TypeCall};

use handing::{hand_on, hand_opened, sentence_of};
use limits::{STANDARD, limits_of};
use packing::pack_answer;
use sizing::{pack_book, pack_table};
use typing::Sentence;
use verdicts::pack_check;

// compiler::compile_ending: the number of the table's bytes, or the refusal.
#[unsafe(no_mangle)]
pub extern "C" fn nedzsuka_compile_ending(
    book: &[u8],
    end: u8,
    ceiling: u64,
    work: &mut [u16],
    out: &mut [u8],
) -> u64
    ensures answer { result ≡ packed (long_of (compile_answer standard book.now end ceiling (length work.old) (length out.old))) }
    ensures out { out.new ≡ written (compile_answer standard book.now end ceiling (length work.old) (length out.old)) out.old }
    ensures work { work.new ≡ worked standard ceiling (tested standard book.now end ceiling (length work.old)) work.old }
{
    let answer = compiler::compile_ending(book, end, ceiling as usize, work, out, STANDARD);
    pack_answer(answer)
}

// compiler::compile: the same with no end tag.
#[unsafe(no_mangle)]
pub extern "C" fn nedzsuka_compile(
    book: &[u8],
    ceiling: u64,
    work: &mut [u16],
    out: &mut [u8],
) -> u64
    ensures answer { result ≡ packed (long_of (compile_answer standard book.now no_end ceiling (length work.old) (length out.old))) }
    ensures out { out.new ≡ written (compile_answer standard book.now no_end ceiling (length work.old) (length out.old)) out.old }
    ensures work { work.new ≡ worked standard ceiling (tested standard book.now no_end ceiling (length work.old)) work.old }
{
    nedzsuka_compile_ending(book, limits::NO_END, ceiling, work, out)
}

// compiler::compile_ending with a host's limits: the number of the table's bytes, or the refusal.
#[unsafe(no_mangle)]
pub extern "C" fn nedzsuka_compile_within(
    pattern: u64,
    rules: u64,
    tags: u64,
    book: &[u8],
    end: u8,
    ceiling: u64,
    work: &mut [u16],
    out: &mut [u8],
) -> u64
    ensures answer { result ≡ packed (long_of (compile_answer (limits_of pattern rules tags) book.now end ceiling (length work.old) (length out.old))) }
    ensures out { out.new ≡ written (compile_answer (limits_of pattern rules tags) book.now end ceiling (length work.old) (length out.old)) out.old }
    ensures work { work.new ≡ worked (limits_of pattern rules tags) ceiling (tested (limits_of pattern rules tags) book.now end ceiling (length work.old)) work.old }
{
    let lim = limits_of(pattern, rules, tags);
    let answer = compiler::compile_ending(book, end, ceiling as usize, work, out, lim);
    pack_answer(answer)
}

// checker::check_table: 0 for yes, the sentence's length for no, or the refusal.
#[unsafe(no_mangle)]
pub extern "C" fn nedzsuka_check_table(
    book: &[u8],
    end: u8,
    table: &[u8],
    work: &mut [u16],
    out: &mut [u8],
) -> u64
    ensures answer { Numbered (checked standard book.now end table.now (length work.old) (length out.old)) out.old out.new result }
    ensures work { work.new ≡ wiped standard (checkable standard book.now end table.now (length work.old)) work.old }
{
    let answer = checker::check_table(book, end, table, work, out, STANDARD);
    pack_check(answer)
}

// starter::write_table: the number of the starter table's bytes, or 11.
#[unsafe(no_mangle)]
pub extern "C" fn nedzsuka_starter_table(out: &mut [u8]) -> u64
    ensures answer { result ≡ packed (long_of (starter_answer (length out.old))) }
    ensures out { out.new ≡ written (starter_answer (length out.old)) out.old }
{
    let answer = starter::write_table(out);
    pack_answer(answer)
}

// tagger::run_book_standard: the number of changed tags, or the refusal.
#[unsafe(no_mangle)]
pub extern "C" fn nedzsuka_run_book_ending(
    book: &[u8],
    end: u8,
    sentence: &[u8],
    out: &mut [u8],
) -> u64
    ensures answer { result ≡ packed (changed sentence.now (book_run standard book.now end sentence.now (length out.old))) }
    ensures out { out.new ≡ written (book_run standard book.now end sentence.now (length out.old)) out.old }
{
    let answer = tagger::run_book_standard(book, end, sentence, out);
    pack_answer(answer)
}

// tagger::run_book_rules: the same, and the number of the rule that rewrote each tag.
#[unsafe(no_mangle)]
pub extern "C" fn nedzsuka_run_book_rules(
    book: &[u8],
    end: u8,
    sentence: &[u8],
    out: &mut [u8],
    rules: &mut [u8],
) -> u64
    ensures answer { result ≡ packed (changed sentence.now (book_run standard book.now end sentence.now (min (length out.old) (length rules.old)))) }
    ensures out { out.new ≡ written (book_run standard book.now end sentence.now (min (length out.old) (length rules.old))) out.old }
    ensures rules { rules.new ≡ written (book_numbers standard book.now end sentence.now (min (length out.old) (length rules.old))) rules.old }
{
    let answer = tagger::run_book_rules(book, end, sentence, out, rules, STANDARD);
    pack_answer(answer)
}

// tagger::run_book: the number of changed tags with no end tag, or the refusal.
#[unsafe(no_mangle)]
pub extern "C" fn nedzsuka_run_book(book: &[u8], sentence: &[u8], out: &mut [u8]) -> u64
    ensures answer { result ≡ packed (changed sentence.now (book_run standard book.now no_end sentence.now (length out.old))) }
    ensures out { out.new ≡ written (book_run standard book.now no_end sentence.now (length out.old)) out.old }
{
    let answer = tagger::run_book(book, sentence, out, STANDARD);
    pack_answer(answer)
}

// tagger::run_book_ending: the same with a host's limits.
#[unsafe(no_mangle)]
pub extern "C" fn nedzsuka_run_book_within(
    pattern: u64,
    rules: u64,
    tags: u64,
    book: &[u8],
    end: u8,
    sentence: &[u8],
    out: &mut [u8],
) -> u64
    ensures answer { result ≡ packed (changed sentence.now (book_run (limits_of pattern rules tags) book.now end sentence.now (length out.old))) }
    ensures out { out.new ≡ written (book_run (limits_of pattern rules tags) book.now end sentence.now (length out.old)) out.old }
{
    let lim = limits_of(pattern, rules, tags);
    let answer = tagger::run_book_ending(book, end, sentence, out, lim);
    pack_answer(answer)
}

// transduction::run_table: the number of changed tags, or the refusal.
#[unsafe(no_mangle)]
pub extern "C" fn nedzsuka_run_table(table: &[u8], sentence: &[u8], out: &mut [u8]) -> u64
    ensures answer { result ≡ packed (changed sentence.now (table_run standard table.now sentence.now (length out.old))) }
    ensures out { out.new ≡ written (table_run standard table.now sentence.now (length out.old)) out.old }
{
    let answer = transduction::run_table(table, sentence, out, STANDARD);
    pack_answer(answer)
}

// The same with a host's limits.
#[unsafe(no_mangle)]
pub extern "C" fn nedzsuka_run_table_within(
    pattern: u64,
    rules: u64,
    tags: u64,
    table: &[u8],
    sentence: &[u8],
    out: &mut [u8],
) -> u64
    ensures answer { result ≡ packed (changed sentence.now (table_run (limits_of pattern rules tags) table.now sentence.now (length out.old))) }
    ensures out { out.new ≡ written (table_run (limits_of pattern rules tags) table.now sentence.now (length out.old)) out.old }
{
    let lim = limits_of(pattern, rules, tags);
    let answer = transduction::run_table(table, sentence, out, lim);
    pack_answer(answer)
}

// loader::load_table: how many numbers were written, or the refusal.
#[unsafe(no_mangle)]
pub extern "C" fn nedzsuka_load_table(table: &[u8], loaded: &mut [u32]) -> u64
    ensures answer { result ≡ packed (long_of (load_answer standard table.now (length loaded.old))) }
    ensures loaded { loaded.new ≡ written (load_answer standard table.now (length loaded.old)) loaded.old }
{
    let answer = loader::load_table(table, loaded, STANDARD);
    pack_answer(answer)
}

// walker::run_loaded: the number of changed tags, or the refusal.
#[unsafe(no_mangle)]
pub extern "C" fn nedzsuka_run_loaded(loaded: &[u32], sentence: &[u8], out: &mut [u8]) -> u64
    ensures answer { result ≡ packed (changed sentence.now (loaded_run standard loaded.now sentence.now (length out.old))) }
    ensures out { out.new ≡ written (loaded_run standard loaded.now sentence.now (length out.old)) out.old }
{
    let answer = walker::run_loaded(loaded, sentence, out, STANDARD);
    pack_answer(answer)
}

// reader::read_book: K × 256 + the number of rules, or the refusal with its byte.
#[unsafe(no_mangle)]
pub extern "C" fn nedzsuka_read_book(book: &[u8]) -> u64
    ensures { result ≡ packed_byte (book_sizes book.now) }
{
    pack_book(reader::read_book(book, STANDARD))
}

// transduction::read_table: K × 65,536 + S, or 12.
#[unsafe(no_mangle)]
pub extern "C" fn nedzsuka_read_table(table: &[u8]) -> u64
    ensures { result ≡ packed (table_sizes table.now) }
{
    pack_table(transduction::read_table(table, STANDARD))
}

// Sentence::open: 0, or 12.
#[unsafe(no_mangle)]
pub extern "C" fn nedzsuka_open(
    table: &[u8],
    state: &mut u64,
    given: &mut u64,
    closed: &mut u64,
) -> u64
    ensures answer { result ≡ packed (opened_as (opened standard table.now)) }
    ensures numbers { (record { state = state.exit.now; given = given.new; closed = closed.new }) ≡ opened_on (opened standard table.now) (record { state = state.entry.now; given = given.old; closed = closed.old }) }
{
    hand_opened(Sentence::open(table, STANDARD), state, given, closed)
}

// Sentence::give: the number of tags put out, or the refusal.
#[unsafe(no_mangle)]
pub extern "C" fn nedzsuka_give(
    table: &[u8],
    state: &mut u64,
    given: &mut u64,
    closed: &mut u64,
    tag: u8,
    out: &mut [u8],
) -> u64
    ensures { TypeCall (give standard table.now (sentence_of (record { state = state.entry.now; given = given.old; closed = closed.old })) tag (length out.old)) (record { state = state.entry.now; given = given.old; closed = closed.old }) (record { state = state.exit.now; given = given.new; closed = closed.new }) out.old out.new result }
{
    let sentence = sentence_of(*state, *given, *closed);
    let typed = sentence.give(table, tag, out, STANDARD);
    hand_on(typed, state, given, closed)
}

// Sentence::look: the number of tags that closing would put out, or the refusal.
#[unsafe(no_mangle)]
pub extern "C" fn nedzsuka_look(
    table: &[u8],
    state: u64,
    given: u64,
    closed: u64,
    out: &mut [u8],
) -> u64
    ensures answer { result ≡ packed (long_of (look standard table.now (sentence_of (record { state = state; given = given; closed = closed })) (length out.old)).put) }
    ensures out { out.new ≡ written (look standard table.now (sentence_of (record { state = state; given = given; closed = closed })) (length out.old)).put out.old }
{
    let sentence = sentence_of(state, given, closed);
    let typed = sentence.look(table, out, STANDARD);
    let answer = typed.answer;
    pack_answer(answer)
}

// Sentence::close: the number of tags put out, or the refusal.
#[unsafe(no_mangle)]
pub extern "C" fn nedzsuka_close(
    table: &[u8],
    state: &mut u64,
    given: &mut u64,
    closed: &mut u64,
    out: &mut [u8],
) -> u64
    ensures { TypeCall (close standard table.now (sentence_of (record { state = state.entry.now; given = given.old; closed = closed.old })) (length out.old)) (record { state = state.entry.now; given = given.old; closed = closed.old }) (record { state = state.exit.now; given = given.new; closed = closed.new }) out.old out.new result }
{
    let sentence = sentence_of(*state, *given, *closed);
    let typed = sentence.close(table, out, STANDARD);
    hand_on(typed, state, given, closed)
}

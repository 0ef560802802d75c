// Answers lines of standard input by calls of the libraries; docs/console.md has the lines and what each is answered.
#![tactic(auto)]

mod request;
mod text;

ghost use Rattle.std.specs.Prelude.{◌≤◌, length};

use answers::Refusal;
use books::Book;
use limits::STANDARD;
use printing::{HexBytes, Refused};
use request::{Call, FIRST, Request, SECOND};
use std::io;
use std::io::{Print, Read};
use text::Fault;

// Output slices have two bytes more than the longest sentence.
// Stays: fixed, since a run is refused by the room that it is given, and memory for it is never short.
const ROOM: usize = SECOND + 2;

// The prefixes of the longest pattern, the empty one too.
const BORDERS: usize = FIRST + 1;

fn put_run<P: Print>(to: &P, answer: Result<usize, Refusal>) -> io::Result<()> {
    match answer {
        Ok(n) => print!(to; " changed {n}"),
        Err(refusal) => print!(to; " {}", Refused(refusal)),
    }
}

fn put_book<P: Print>(to: &P, answer: Result<Book, Refusal>) -> io::Result<()> {
    match answer {
        Ok(Book { tags, rules, .. }) => print!(to; " tags {tags} rules {rules}"),
        Err(refusal) => print!(to; " {}", Refused(refusal)),
    }
}

// Into a slice of that length, which holds ee.
fn answer_run<P: Print>(to: &P, book: &[u8], sentence: &[u8], room: usize) -> io::Result<()>
    requires { room ≤ ROOM }
{
    let mut out = [0xee; ROOM];
    let out = &mut out[..room];
    put_run(to, tagger::run_book(book, sentence, out, STANDARD))?;
    print!(to; " :{}", HexBytes(out))
}

fn answer_long<P: Print>(to: &P, book: &[u8], sentence: &[u8]) -> io::Result<()> {
    let mut out = [0xee; ROOM];
    put_run(to, tagger::run_book(book, sentence, &mut out, STANDARD))
}

// The borders of all prefixes but the empty one.
fn answer_borders<P: Print>(to: &P, pattern: &[u8]) -> io::Result<()>
    requires { length pattern.now ≤ FIRST }
{
    let mut borders = [0; BORDERS];
    let count = borders::find_borders(pattern, &mut borders);
    print!(to; " compared {count} :")?;
    for border in &borders[1..pattern.len() + 1] {
        print!(to; " {border}")?;
    }
    Ok(())
}

fn answer<P: Print>(to: &P, request: Request) -> io::Result<()> {
    let Request {
        call,
        first,
        second,
    } = request;
    match call {
        Call::Book => put_book(to, reader::read_book(first, STANDARD)),
        Call::Run => answer_run(to, first, second, second.len() + 2),
        // Into a slice one byte too short.
        Call::Short if second.is_empty() => print!(to; " {}", Fault::Empty),
        Call::Short => answer_run(to, first, second, second.len() - 1),
        Call::Long => answer_long(to, first, second),
        Call::Proof => print!(to; "{}", HexBytes(spans::changed_span(first, second))),
        Call::Borders => answer_borders(to, first),
    }
}

fn answer_operands<P: Print>(to: &P, call: Call, left: &[u8], right: &[u8]) -> io::Result<()> {
    let mut first = [0; FIRST];
    let mut second = [0; SECOND];
    match Request::read(call, left, right, &mut first, &mut second) {
        Ok(request) => answer(to, request),
        Err(fault) => print!(to; " {fault}"),
    }
}

// The operands before and after the colon; of `book` and `borders`, which have none, all is the first. Called in two places, `answer_operands` stays a
// call, and other lines are written without room for its buffers.
fn answer_call<P: Print>(to: &P, call: Call, rest: &[u8]) -> io::Result<()> {
    if matches!(call, Call::Book | Call::Borders) {
        return answer_operands(to, call, rest, b"");
    }
    match rest.iter().position(|byte| *byte == b':') {
        Some(colon) => answer_operands(to, call, &rest[..colon], &rest[colon + 1..]),
        None => print!(to; " {}", Fault::Colon),
    }
}

fn answer_words<P: Print>(to: &P, line: &[u8]) -> io::Result<()> {
    let end = line
        .iter()
        .position(|byte| *byte == b' ')
        .unwrap_or(line.len());
    let (word, rest) = line.split_at(end);
    match Call::try_from(word) {
        Ok(call) => answer_call(to, call, rest),
        Err(fault) => print!(to; " {fault}"),
    }
}

fn answer_line<P: Print>(to: &P, line: &[u8]) -> io::Result<()> {
    to.write_all(line)?;
    if !matches!(line, [] | [b'#', ..]) {
        to.write_all(b" ->")?;
        answer_words(to, line)?;
    }
    to.write_all(b"\n")
}

// The lines of the input; of an input that is cut, those whose ends were read.
fn answer_lines<P: Print>(to: &P, input: &[u8], cut: bool) -> io::Result<()> {
    for line in input.split_inclusive(|byte| *byte == b'\n') {
        match line.strip_suffix(b"\n") {
            Some(whole) => answer_line(to, whole)?,
            None if cut => {}
            None => answer_line(to, line)?,
        }
    }
    Ok(())
}

fn main(rt: HostRuntime) -> io::Result<()> {
    let mut from = rt.reader();
    // Stays: fixed, since no more than that is read, and the last line says so.
    let mut input = [0; 65536];
    let n = printing::read_full(&mut from, &mut input)?;
    let cut = n == input.len() && 0 < from.read(&mut [0; 1])?;
    answer_lines(&rt, &input[..n], cut)?;
    if cut {
        println!(rt; "input cut")?;
    }
    Ok(())
}

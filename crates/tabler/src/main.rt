// Compiles a book of at most four tags and two rules without sets, raw bytes on standard input, with ceiling 16: writes the table's states, its length and
// its bytes; or `refused` with the number, and i for 10; or `too big`.
#![tactic(auto)]

use answers::Refusal;
use books::Book;
use limits::STANDARD;
use printing::HexBytes;
use std::io;
use std::io::Print;

const CEILING: usize = 16;

// Room for the work on two rules over four tags, 16 × 16 × (4 + 1) × (5 × 2 + 8) entries.
const WORK: usize = 23040;

// Room for any table of 16 states.
// Stays: fixed, as the work is, since a book is refused by the room that there is.
const TABLE: usize = 4096;

fn put_refusal<P: Print>(to: &P, refusal: Refusal) -> io::Result<()> {
    match refusal {
        Refusal::AtByte(reason, _) | Refusal::Bare(reason) => {
            println!(to; "refused {}", u8::from(reason))
        }
        Refusal::AtRule(reason, rule) => println!(to; "refused {} {rule}", u8::from(reason)),
    }
}

// Of fewer than four bytes, which no table has, nothing.
fn put_table<P: Print>(to: &P, table: &[u8]) -> io::Result<()> {
    let (Some(states), Some((first, rest))) = (printing::states(table), table.split_first()) else {
        return Ok(());
    };
    println!(to; "states {states}")?;
    println!(to; "bytes {}", table.len())?;
    println!(to; "{first:02x}{}", HexBytes(rest))
}

fn answer<P: Print>(to: &P, book: &[u8]) -> io::Result<()> {
    let mut work = [0; WORK];
    let mut out = [0; TABLE];
    match compiler::compile(book, CEILING, &mut work, &mut out, STANDARD) {
        Ok(n) => put_table(to, out.get(..n).unwrap_or(b"")),
        Err(refusal) => put_refusal(to, refusal),
    }
}

fn answer_book<P: Print>(to: &P, book: &[u8]) -> io::Result<()> {
    match reader::read_book(book, STANDARD) {
        Err(refusal) => put_refusal(to, refusal),
        Ok(Book { tags, rules, sets }) if 4 < tags || 2 < rules || sets => {
            println!(to; "too big")
        }
        Ok(_) => answer(to, book),
    }
}

fn main(rt: HostRuntime) -> io::Result<()> {
    // Stays: fixed, since no more of the input than that is read, and a longer book is refused at a byte before.
    let mut input = [0; 4096];
    let n = printing::read_full(&mut rt.reader(), &mut input)?;
    answer_book(&rt, &input[..n])
}

// Compiles the starter book (document 02, W7) and writes its table as source text: crates/starter/src/table.rt.
#![tactic(auto)]

use limits::STANDARD;
use printing::Refused;
use std::io;
use std::io::Print;

// Over 48 tags, with one rule: 0 1 becomes 0 2.
const BOOK: &[u8] = b"\x20\x30\x21\x01\x02\x22\x00\x22\x01\x00";

const CEILING: usize = 3;

// As many entries as one rule over 48 tags needs at that ceiling.
const WORK: usize = 30576;

// A table of three states: 30, K and S, the states, and 00.
// Stays: fixed, as the work is, since a book is refused by the room that there is.
const TABLE: usize = 731;

// A state is 31 and 00, and five bytes for each transition.
const STATE: usize = 242;

// Six transitions.
const LINE: usize = 30;

// The bytes in a line of their own.
fn put_line<P: Print>(to: &P, bytes: &[u8]) -> io::Result<()> {
    print!(to; "\\\n    ")?;
    for byte in bytes {
        print!(to; "\\x{byte:02x}")?;
    }
    Ok(())
}

// A state's first two bytes and then its transitions; or the table's end.
fn put_state<P: Print>(to: &P, state: &[u8]) -> io::Result<()> {
    let (mark, transitions) = state.split_at(state.len().min(2));
    put_line(to, mark)?;
    for line in transitions.chunks(LINE) {
        put_line(to, line)?;
    }
    Ok(())
}

fn put_source<P: Print>(to: &P, table: &[u8; TABLE]) -> io::Result<()> {
    println!(to;
        "// The starter table, as the program `generator` writes it: 30, K and S; for each state 31, then its transitions; 00."
    )?;
    print!(to; "pub const TABLE: [u8; {TABLE}] = *b\"")?;
    let (head, states) = table.split_at(4);
    put_line(to, head)?;
    for state in states.chunks(STATE) {
        put_state(to, state)?;
    }
    println!(to; "\";")
}

fn main(rt: HostRuntime) -> io::Result<()> {
    let mut work = [0; WORK];
    let mut out = [0; TABLE];
    match compiler::compile(BOOK, CEILING, &mut work, &mut out, STANDARD) {
        Ok(_) => put_source(&rt, &out),
        Err(refusal) => print!(rt; "{}", Refused(refusal)),
    }
}

// The lines of document 01 that are not marked: "A program runs the others and compares". Each line has the case and what compile answers.
#![tactic(auto)]

use limits::STANDARD;
use printing::Refused;
use std::io;
use std::io::Print;

// As many entries as sixteen rules over two tags need at ceiling 17.
const WORK: usize = 71808;

// Stays: fixed, as the work is, since a book is refused by the room that there is.
const TABLE: usize = 512;

struct Case {
    name: &'static str,
    book: &'static [u8],
    ceiling: usize,
}

const CASES: [Case; 8] = [
    Case {
        name: "ababb to abbbb (002, figure 1)",
        book: b"\x20\x02\x21\x02\x01\x22\x00\x22\x01\x22\x00\x22\x01\x22\x01\x00",
        ceiling: 16,
    },
    Case {
        name: "a book without rules",
        book: b"\x20\x02\x00",
        ceiling: 16,
    },
    Case {
        name: "ceiling 0",
        book: b"\x20\x02\x00",
        ceiling: 0,
    },
    Case {
        name: "ceiling 257",
        book: b"\x20\x02\x00",
        ceiling: 257,
    },
    Case {
        name: "16 rules",
        book: b"\x20\x02\x21\x00\x01\x22\x00\x21\x00\x01\x22\x00\x21\x00\x01\x22\x00\x21\x00\x01\x22\x00\x21\x00\x01\x22\x00\x21\x00\x01\x22\x00\x21\x00\x01\x22\x00\x21\x00\x01\x22\x00\x21\x00\x01\x22\x00\x21\x00\x01\x22\x00\x21\x00\x01\x22\x00\x21\x00\x01\x22\x00\x21\x00\x01\x22\x00\x21\x00\x01\x22\x00\x21\x00\x01\x22\x00\x21\x00\x01\x22\x00\x00",
        ceiling: 17,
    },
    Case {
        name: "17 rules",
        book: b"\x20\x02\x21\x00\x01\x22\x00\x21\x00\x01\x22\x00\x21\x00\x01\x22\x00\x21\x00\x01\x22\x00\x21\x00\x01\x22\x00\x21\x00\x01\x22\x00\x21\x00\x01\x22\x00\x21\x00\x01\x22\x00\x21\x00\x01\x22\x00\x21\x00\x01\x22\x00\x21\x00\x01\x22\x00\x21\x00\x01\x22\x00\x21\x00\x01\x22\x00\x21\x00\x01\x22\x00\x21\x00\x01\x22\x00\x21\x00\x01\x22\x00\x21\x00\x01\x22\x00\x00",
        ceiling: 17,
    },
    Case {
        name: "a pattern of 6",
        book: b"\x20\x02\x21\x00\x01\x22\x00\x22\x00\x22\x00\x22\x00\x22\x00\x22\x00\x00",
        ceiling: 16,
    },
    Case {
        name: "a pattern of 7",
        book: b"\x20\x02\x21\x00\x01\x22\x00\x22\x00\x22\x00\x22\x00\x22\x00\x22\x00\x22\x00\x00",
        ceiling: 16,
    },
];

// The S of the table, or the refusal.
fn compile<P: Print>(to: &P, case: &Case) -> io::Result<()> {
    let mut work = [7; WORK];
    let mut out = [7; TABLE];
    print!(to; "{}: ", case.name)?;
    match compiler::compile(case.book, case.ceiling, &mut work, &mut out, STANDARD) {
        Ok(_) => { println!(to; "states {}", printing::states(&out).unwrap()) }
        Err(refusal) => println!(to; "{}", Refused(refusal)),
    }
}

fn main(rt: HostRuntime) -> io::Result<()> {
    for case in &CASES {
        compile(&rt, case)?;
    }
    Ok(())
}

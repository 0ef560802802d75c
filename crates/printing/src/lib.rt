// What programs write to standard output, and how they read standard input.
#![tactic(auto)]

ghost use Rattle.std.specs.Prelude.{◌≡◌, ◌+◌, ◌*◌, ◌≤◌, ◌<◌, length, slice_index, IfOk, MatchOption};

use answers::Refusal;
use std::io::Read;
use std::{fmt, io};

// A refusal, as `refused` with its number and the byte or the rule that it names.
#[derive(Clone, Copy)]
pub struct Refused(pub Refusal);

impl fmt::Display for Refused {
    fn fmt<W: fmt::Write>(&self, f: &mut fmt::Formatter<W>) -> fmt::Result {
        match self.0 {
            Refusal::AtByte(reason, byte) => {
                write!(f, "refused {} at byte {byte}", u8::from(reason))
            }
            Refusal::AtRule(reason, rule) => {
                write!(f, "refused {} at rule {rule}", u8::from(reason))
            }
            Refusal::Bare(reason) => write!(f, "refused {}", u8::from(reason)),
        }
    }
}

// Bytes, each as a space and two hexadecimal digits.
#[derive(Clone, Copy)]
pub struct HexBytes<'a>(pub &'a [u8]);

impl fmt::Display for HexBytes<'_> {
    fn fmt<W: fmt::Write>(&self, f: &mut fmt::Formatter<W>) -> fmt::Result {
        for byte in self.0 {
            write!(f, " {byte:02x}")?;
        }
        Ok(())
    }
}

// The S of a table, which stands after 30 and K.
pub fn states(table: &[u8]) -> Option<u16>
    ensures { MatchOption result (length table.now < 4) (λ s. (4 ≤ length table.now) × (s ≡ slice_index table.now 2 * 256 + slice_index table.now 3)) }
{
    match table {
        [_, _, high, low, ..] => Some(u16::from_be_bytes([*high, *low])),
        _ => None,
    }
}

// Reads until the buffer is full or the input ends: how many bytes stand at the front of the buffer.
pub fn read_full<R: Read>(from: &mut R, buf: &mut [u8]) -> io::Result<usize>
    ensures { IfOk result (λ n. n ≤ length buf.new) }
{
    let mut done = 0;
    // Stays: the place goes on by what each read gives, as no `for` does.
    while done < buf.len() {
        let n = from.read(&mut buf[done..])?;
        if n == 0 {
            break;
        }
        done += n;
    }
    Ok(done)
}

// What a line asks for: a call, by its first word, and the operands after it.
ghost use Rattle.std.specs.Prelude.{◌≤◌, length, IfOk};
ghost use Rattle.console.specs.declared.request.TheConstants.{FIRST, SECOND};

use crate::text;
use crate::text::Fault;

#[derive(Clone, Copy)]
pub enum Call {
    Book,
    Run,
    Short,
    Long,
    Proof,
    Borders,
}

impl TryFrom<&[u8]> for Call {
    type Error = Fault;

    fn try_from(word: &[u8]) -> Result<Self, Fault> {
        match word {
            b"book" => Ok(Call::Book),
            b"run" => Ok(Call::Run),
            b"short" => Ok(Call::Short),
            b"long" => Ok(Call::Long),
            b"proof" => Ok(Call::Proof),
            b"borders" => Ok(Call::Borders),
            _ => Err(Fault::Word),
        }
    }
}

// The most bytes that a first operand has, and a second one.
// Stays: fixed, since it decides which operands are too long.
pub const FIRST: usize = 4096;

pub const SECOND: usize = 70000;

// Of `book` and `borders` the second operand is empty.
#[derive(Clone, Copy)]
pub struct Request<'a> {
    pub call: Call,
    pub first: &'a [u8],
    pub second: &'a [u8],
    ghost first_fits: { length first.now ≤ FIRST },
    ghost second_fits: { length second.now ≤ SECOND },
}

impl<'a> Request<'a> {
    // The request, its operands at the front of the two buffers, of which the second holds zeros.
    pub fn read(
        call: Call,
        left: &[u8],
        right: &[u8],
        first: &'a mut [u8; FIRST],
        second: &'a mut [u8; SECOND],
    ) -> Result<Self, Fault> {
        let first = text::hex_bytes(left, first)?;
        let second = read_second(call, right, second)?;
        Ok(Request {
            call,
            first,
            second,
        })
    }
}

// The second operand, at the front of `out`, which holds zeros.
fn read_second<'a>(call: Call, text: &[u8], out: &'a mut [u8]) -> Result<&'a [u8], Fault>
    requires { length out.old ≤ SECOND }
    ensures { IfOk result (λ bytes. length bytes.now ≤ length out.entry.now) }
{
    match call {
        Call::Long => {
            let n = text::decimal(text, out.len())?;
            Ok(&out[..n])
        }
        _ => text::hex_bytes(text, out),
    }
}

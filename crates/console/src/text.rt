// The bytes and numbers in a text.
ghost use Rattle.std.specs.Prelude.{◌≤◌, ◌<◌, length, IfOk, IfSome};

use std::fmt;

// What is wrong with a line.
#[derive(Clone, Copy)]
pub enum Fault {
    Word,
    Colon,
    Hexadecimal,
    Number,
    Empty,
    Long,
}

impl fmt::Display for Fault {
    fn fmt<W: fmt::Write>(&self, f: &mut fmt::Formatter<W>) -> fmt::Result {
        f.write_str(match self {
            Fault::Word => "unknown word",
            Fault::Colon => "no colon",
            Fault::Hexadecimal => "bad hexadecimal",
            Fault::Number => "bad number",
            Fault::Empty => "empty sentence",
            Fault::Long => "too long",
        })
    }
}

// The value of a hexadecimal digit. Capitals are none.
fn digit(byte: u8) -> Option<u8>
    ensures { IfSome result (λ d. d < 16) }
{
    match byte {
        b'0'..=b'9' => Some(byte - b'0'),
        b'a'..=b'f' => Some(byte - b'a' + 10),
        _ => None,
    }
}

// The byte that a pair of digits gives.
fn read_pair(text: &[u8]) -> Option<u8> {
    let [high, low] = text else {
        return None;
    };
    Some(digit(*high)? * 16 + digit(*low)?)
}

// The bytes in the text, pairs of digits with spaces between them, at the front of `out`.
pub fn hex_bytes<'a>(text: &[u8], out: &'a mut [u8]) -> Result<&'a [u8], Fault>
    ensures { IfOk result (λ bytes. length bytes.now ≤ length out.old) }
{
    let mut n = 0;
    for pair in text
        .split(|byte| *byte == b' ')
        .filter(|pair| !pair.is_empty())
    {
        let byte = read_pair(pair).ok_or(Fault::Hexadecimal)?;
        if n == out.len() {
            return Err(Fault::Long);
        }
        out[n] = byte;
        n += 1;
    }
    Ok(&out[..n])
}

// The number that the digits give, at most `most`.
fn number(digits: &[u8], most: usize) -> Result<usize, Fault>
    requires { most ≤ 1000000 }
    ensures { IfOk result (λ n. n ≤ most) }
{
    let mut n = 0;
    for byte in digits {
        let d = digit(*byte).filter(|d| *d < 10).ok_or(Fault::Number)?;
        n = n * 10 + usize::from(d);
        if most < n {
            return Err(Fault::Long);
        }
    }
    Ok(n)
}

// The decimal number in the text, spaces around it left out, at most `most`.
pub fn decimal(text: &[u8], most: usize) -> Result<usize, Fault>
    requires { most ≤ 1000000 }
    ensures { IfOk result (λ n. n ≤ most) }
{
    let mut words = text
        .split(|byte| *byte == b' ')
        .filter(|word| !word.is_empty());
    match (words.next(), words.next()) {
        (Some(digits), None) => number(digits, most),
        _ => Err(Fault::Number),
    }
}

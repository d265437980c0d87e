// Bytes that a line of text cannot hold, by escapes: `\n`, `\t`, `\\`, and `\x` with two digits in base sixteen.
#![tactic(auto)]

ghost use Rattle.std.specs.Prelude.{◌≡◌, ◌<◌, codes, Some};
ghost use Rattle.arrays.specs.Items.{items};
ghost use Rattle.escapes.specs.Escapes.{written, hex_digit, DigitFits, Steps, ReadInPlace, ReadsBack};

use arrays::ArrayVec;
use std::error::Error;
use std::fmt;
use tokens::byte::digit_value;

// An escape that is none.
#[derive(Clone, Copy, PartialEq, Eq, Debug)]
pub struct BadEscape;

impl fmt::Display for BadEscape {
    ghost output = { λ _. Some (codes "bad escape: \\n, \\t, \\\\ and \\xHH are known") };

    fn fmt<W: fmt::Write>(&self, f: &mut fmt::Formatter<W>) -> fmt::Result {
        f.write_str("bad escape: \\n, \\t, \\\\ and \\xHH are known")
    }
}

impl Error for BadEscape {}

// Where within an escape the next byte stands.
#[derive(Clone, Copy)]
enum Within {
    Outside,
    Backslash,
    Hex,
    Second(u8),
}

impl Within {
    // Reads one byte: where the next one stands, and which byte is meant, if one is complete.
    fn step(self, byte: u8) -> Result<(Within, Option<u8>), BadEscape>
        requires { DigitFits self }
        ensures { Steps self byte result }
    {
        match self {
            Within::Outside => match byte {
                b'\\' => Ok((Within::Backslash, None)),
                _ => Ok((Within::Outside, Some(byte))),
            },
            Within::Backslash => match byte {
                b'n' => Ok((Within::Outside, Some(b'\n'))),
                b't' => Ok((Within::Outside, Some(b'\t'))),
                b'\\' => Ok((Within::Outside, Some(b'\\'))),
                b'x' => Ok((Within::Hex, None)),
                _ => Err(BadEscape),
            },
            Within::Hex => {
                let high = digit_value(byte).ok_or(BadEscape)?;
                Ok((Within::Second(high), None))
            }
            Within::Second(high) => {
                let low = digit_value(byte).ok_or(BadEscape)?;
                Ok((Within::Outside, Some(16 * high + low)))
            }
        }
    }
}

// How a byte is written.
pub fn write(byte: u8) -> ArrayVec<u8, 4>
    ensures { items result ≡ written byte }
{
    let high = hex_digit(byte / 16);
    let low = hex_digit(byte % 16);
    // there is room for four
    match byte {
        b'\n' => ArrayVec::from_slice(0, b"\\n"),
        b'\t' => ArrayVec::from_slice(0, b"\\t"),
        b'\\' => ArrayVec::from_slice(0, b"\\\\"),
        32..=126 => ArrayVec::from_slice(0, &[byte]),
        _ => ArrayVec::from_slice(0, &[b'\\', b'x', high, low]),
    }
    .unwrap()
}

fn hex_digit(n: u8) -> u8
    requires { n < 16 }
    ensures { result ≡ hex_digit n }
{
    if n < 10 { b'0' + n } else { b'a' + (n - 10) }
}

// Reads a line with its escapes, in place: its first bytes are then those that are meant, and how many there are is answered. Of a line
// with a bad escape nothing is said of what then stands in it. What is promised beyond that is that what is written reads back.
#[tactic(auto, using(crate::proofs::Back::reads_back, crate::proofs::Reading::open_end))]
pub fn read(line: &mut [u8]) -> Result<usize, BadEscape>
    ensures answer { ReadInPlace line.old result line.new }
    ensures back { ReadsBack }
{
    let mut len = 0;
    let mut within = Within::Outside;
    for i in 0..line.len() {
        let (next, meant) = within.step(line[i])?;
        within = next;
        if let Some(byte) = meant {
            line[len] = byte;
            len += 1;
        }
    }
    match within {
        Within::Outside => Ok(len),
        _ => Err(BadEscape),
    }
}

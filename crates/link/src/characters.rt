// Test characters of a frame, by procedure a and by procedure b.
ghost use Rattle.std.specs.Prelude.{◌≡◌, ◌%◌, sum};
ghost use Rattle.link.specs.Characters.{xor_of, hex_of, pair_a, pair_b, pair_of, IsShaped, due_of};

use crate::cut::HOLDS;
use crate::settings::{Procedure, Refusal, Why};

pub const STX: u8 = 2;

pub const ETX: u8 = 3;

pub const CR: u8 = 13;

// The two characters, as they stand at L-2 and L-1.
#[derive(Clone, Copy, Debug, PartialEq, Eq)]
pub struct Pair {
    pub first: u8,
    pub second: u8,
}

// The XOR of all bytes.
fn xor_of(bytes: &[u8]) -> u8
    ensures { result ≡ xor_of bytes.now }
{
    bytes.iter().fold(0, |acc, byte| acc ^ byte)
}

// The sum of all bytes, modulo 256.
fn sum_of(bytes: &[u8]) -> u8
    ensures { result ≡ sum bytes.now % 256 }
{
    bytes
        .iter()
        .fold(0, |acc: u8, byte| acc.wrapping_add(*byte))
}

// A hexadecimal digit in capitals, of the low half-byte. By hand: `char::from_digit` gives small letters, as a `char` in an Option.
fn hex(n: u8) -> u8
    ensures { result ≡ hex_of (n % 16) }
{
    let h = n % 16;
    if h < 10 { h + 48 } else { h + 55 }
}

// Procedure a over the bytes that it covers: 1 to L-3.
fn pair_a(bytes: &[u8]) -> Pair
    ensures { result ≡ pair_a bytes.now }
{
    let x = xor_of(bytes);
    Pair {
        first: (x >> 4) | 0x30,
        second: (x & 15) | 0x30,
    }
}

// Procedure b over the bytes that it covers: 2 to L-4.
fn pair_b(bytes: &[u8]) -> Pair
    ensures { result ≡ pair_b bytes.now }
{
    let x = sum_of(bytes);
    Pair {
        first: hex(x / 16),
        second: hex(x),
    }
}

impl Procedure {
    // The test characters of a frame whose bytes 1 to L-3, STX to ETX, are `front`.
    pub(crate) fn pair(self, front: &[u8]) -> Pair
        ensures { result ≡ pair_of self front.now }
    {
        match self {
            Procedure::A => pair_a(front),
            Procedure::B => match front {
                [_, covered @ .., _] => pair_b(covered),
                _ => pair_b(&[]),
            },
        }
    }
}

// A frame in shape: its front, STX to ETX, and the test characters that it has.
#[derive(Clone, Copy)]
pub(crate) struct Shaped<'a> {
    pub front: &'a [u8],
    pub marks: Pair,
}

// It has 6 to 255 bytes, with STX, ETX and CR in position.
impl<'a> TryFrom<&'a [u8]> for Shaped<'a> {
    type Error = Refusal;

    ghost try_from_gives = { λ frame r. IsShaped frame.now r };

    fn try_from(frame: &'a [u8]) -> Result<Self, Refusal> {
        match frame {
            [front @ .., first, second, CR]
                if frame.len() <= HOLDS && matches!(front, [STX, _, .., ETX]) => {
                Ok(Shaped {
                    front,
                    marks: Pair {
                        first: *first,
                        second: *second,
                    },
                })
            }
            _ => Err(Why::Misshapen.into()),
        }
    }
}

// The test characters due for a frame of L bytes, whatever stands in their place. The procedure is a byte, since any other is refused 1.
pub fn test_characters(procedure: u8, frame: &[u8]) -> Result<Pair, Refusal>
    ensures { result ≡ due_of procedure frame.now }
{
    let procedure = Procedure::try_from(procedure)?;
    let shape = Shaped::try_from(frame)?;
    Ok(procedure.pair(shape.front))
}

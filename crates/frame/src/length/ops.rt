// Reading and writing a remaining length.
ghost use Rattle.std.specs.Prelude.{◌≡◌, ◌%◌, ◌^◌, ◌<◌, ◌≤◌, length as len, IfSome};
ghost use Rattle.frame.specs.Length.{length_in, LengthLaw, Writes, written};

use crate::length::LengthBytes;

// The number at the front of the bytes and how many bytes it took, in whichever form of one to four bytes;
// none where it is missing, unfinished or longer than four bytes. A pair, as the rule for the length's reader asks.
pub fn read_length(bytes: &[u8]) -> Option<(u32, usize)>
    ensures answer { result ≡ length_in bytes.now }
    ensures bound { IfSome result (λ p. (p.0 < 2 ^ 28) × (p.1 ≤ 4) × (p.1 ≤ len bytes.now)) }
{
    match bytes {
        [a, ..] if *a < 128 => Some((low(*a), 1)),
        [a, b, ..] if *b < 128 => Some((low(*a) + 128 * low(*b), 2)),
        [a, b, c, ..] if *c < 128 => Some((low(*a) + 128 * (low(*b) + 128 * low(*c)), 3)),
        [a, b, c, d, ..] if *d < 128 => {
            Some((
                low(*a) + 128 * (low(*b) + 128 * (low(*c) + 128 * low(*d))),
                4,
            ))
        }
        _ => None,
    }
}

// The shortest form of a number, or none from 2^28 on, which four bytes do not hold.
pub fn write_length(number: u32) -> Option<LengthBytes>
    ensures answer { Writes number result }
{
    let a = (number % 128) as u8;
    let b = (number / 128 % 128) as u8;
    let c = (number / 128 / 128 % 128) as u8;
    let d = (number / 128 / 128 / 128 % 128) as u8;
    let (bytes, count) = match number {
        0..=127 => ([a, 0, 0, 0], 1),
        128..=16383 => ([128 + a, b, 0, 0], 2),
        16384..=2097151 => ([128 + a, 128 + b, c, 0], 3),
        2097152..=268435455 => ([128 + a, 128 + b, 128 + c, d], 4),
        _ => return None,
    };
    Some(LengthBytes { bytes, count })
}

// What is written of any number below 2^28, whatever follows, is read back as that number with all
// its bytes taken, and no form of fewer bytes is read as it.
pub fn length_law()
    ensures law { LengthLaw }
{}

// The seven bits of a byte that count.
fn low(byte: u8) -> u32
    ensures answer { result ≡ byte % 128 }
    ensures bound { result < 128 }
{
    u32::from(byte % 128)
}

impl LengthBytes {
    // The one to four bytes.
    pub fn as_slice(&self) -> &[u8]
        ensures answer { result.now ≡ written self.now }
    {
        &self.bytes[0..self.count]
    }
}

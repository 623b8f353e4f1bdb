// Bytes in hexadecimal: two digits each, or `-` for no bytes.
ghost use Rattle.std.specs.Prelude.{◌≡◌, ◌<◌, ◌≤◌, length, Some, IfOk, string_bytes};
ghost use Rattle.std.specs.List.{flat_map};
ghost use Rattle.lines.specs.Hex.{digit, digit_value, byte_hex, hex_text, pairs_in, hex_in, bytes_read, Read, Below16, HexLaw};

use crate::error::LineError;
use std::alloc::{AllocError, Global};
use std::fmt;
use std::str::from_utf8;

// The bytes that a word of hexadecimal digits of either case writes; a word with another character or an odd
// number of digits is refused.
pub fn read_hex(heap: Global, word: &[u8]) -> Result<Vec<u8>, LineError>
    ensures answer { Read (hex_in word.now) result }
{
    hex_bytes(heap, word)?.ok_or(LineError::Malformed)
}

// The bytes that a word of hexadecimal digits of either case writes, none where it has another character or an
// odd number of digits, or the error that there is no memory for them.
pub fn hex_bytes(heap: Global, word: &[u8]) -> Result<Option<Vec<u8>>, AllocError>
    ensures answer { IfOk result (λ read. bytes_read read ≡ hex_in word.now) }
{
    match word {
        [] => Ok(None),
        [b'-'] => Ok(Some(Vec::new(heap))),
        _ => read_pairs(heap, word),
    }
}

// The bytes of digits, two by two.
fn read_pairs(heap: Global, digits: &[u8]) -> Result<Option<Vec<u8>>, AllocError>
    ensures answer { IfOk result (λ read. bytes_read read ≡ pairs_in digits.now) }
{
    let mut bytes = Vec::new(heap);
    let mut rest = digits;
    // Apart from the loop of `unescape_each`: one loop for both takes its reader as a parameter, and then has to ask
    // of any reader that it shortens the text and that two answers for one text agree.
    while let [high, low, more @ ..] = rest {
        let (Some(high), Some(low)) = (value_of(*high), value_of(*low)) else {
            return Ok(None);
        };
        bytes.push((16 * high + low) as u8)?;
        rest = more;
    }
    if !rest.is_empty() {
        return Ok(None);
    }
    Ok(Some(bytes))
}

// The bytes in lower case, or the error that there is no memory for them.
pub fn hex_text(heap: Global, bytes: &[u8]) -> Result<String, AllocError>
    ensures answer { IfOk result (λ text. string_bytes text ≡ hex_text bytes.now) }
{
    Hex(bytes).to_string(heap)
}

// Bytes that are shown in hexadecimal, in lower case.
#[derive(Clone, Copy)]
pub struct Hex<'a>(pub &'a [u8]);

impl fmt::Display for Hex<'_> {
    ghost output = { λ hex. Some (hex_text hex.0.now) };

    fn fmt<W: fmt::Write>(&self, f: &mut fmt::Formatter<W>) -> fmt::Result {
        match self.0 {
            [] => write!(f, "-"),
            bytes => {
                // A chunk at a time: a call of the writer costs more than the digits of a byte.
                let mut text = [0; 64];
                for chunk in bytes.chunks(32) {
                    f.write_str(hex_chunk(&mut text, chunk))?;
                }
                Ok(())
            }
        }
    }
}

// The digits of at most 32 bytes, which are put at the front of `text`.
fn hex_chunk<'a>(text: &'a mut [u8; 64], bytes: &[u8]) -> &'a str
    requires { length bytes.now ≤ 32 }
    ensures answer { result.now ≡ flat_map byte_hex bytes.now }
{
    let mut len = 0;
    for &byte in bytes {
        text[len..len + 2].copy_from_slice(&digits(byte));
        len += 2;
    }
    from_utf8(&text[..len]).unwrap()
}

// The two digits of a byte.
pub(crate) fn digits(byte: u8) -> [u8; 2]
    ensures answer { result ≡ byte_hex byte }
{
    [digit_of(byte / 16), digit_of(byte % 16)]
}

// The digit of a number below 16.
fn digit_of(number: u8) -> u8
    requires { number < 16 }
    ensures answer { result ≡ digit number }
{
    if number < 10 {
        b'0' + number
    } else {
        b'a' + (number - 10)
    }
}

// What is written of any bytes is read back as those bytes.
pub fn hex_law()
    ensures law { HexLaw }
{}

// The number that a digit of either case stands for.
pub(crate) fn value_of(character: u8) -> Option<u32>
    ensures answer { result ≡ digit_value character }
    ensures bound { Below16 result }
{
    char::from(character).to_digit(16)
}

// Escaped text: bytes 0x21 to 0x7e but the backslash stand for themselves, any other byte is `\xHH` in lower
// case; no bytes at all are `-`, and a lone `-` is `\x2d`.
ghost use Rattle.std.specs.Prelude.{◌≡◌, ◌≤◌, length, Some, IfOk, string_bytes};
ghost use Rattle.std.specs.List.{flat_map};
ghost use Rattle.lines.specs.Escape.{plain, escaped_byte, escaped, Undoes, Unescaped, UnitIn, CodeOf, EscapeLaw};

use crate::error::LineError;
use crate::hex::{digits, value_of};
use std::alloc::{AllocError, Global};
use std::fmt;
use std::str::from_utf8;

// The bytes as escaped text, or the error that there is no memory for it.
pub fn escape(heap: Global, bytes: &[u8]) -> Result<String, AllocError>
    ensures answer { IfOk result (λ text. string_bytes text ≡ escaped bytes.now) }
{
    Escaped(bytes).to_string(heap)
}

// The bytes of which a text is the escaped text; a text that is written of no bytes is refused.
pub fn unescape(heap: Global, text: &[u8]) -> Result<Vec<u8>, LineError>
    ensures answer { Unescaped text.now result }
{
    escaped_bytes(heap, text)?.ok_or(LineError::Malformed)
}

// The bytes of which a text is the escaped text, none where it is written of no bytes, or the error that there is
// no memory for them.
pub fn escaped_bytes(heap: Global, text: &[u8]) -> Result<Option<Vec<u8>>, AllocError>
    ensures answer { IfOk result (Undoes escaped text.now) }
{
    match text {
        [] => Ok(None),
        b"-" => Ok(Some(Vec::new(heap))),
        b"\\x2d" => Ok(Some(vec![in heap; b'-']?)),
        _ => unescape_each(heap, text),
    }
}

// What is written of some bytes is written of no other bytes, and is one word of printable characters.
pub fn escape_law()
    ensures law { EscapeLaw }
{}

// Does the byte stand for itself?
fn is_plain(byte: u8) -> bool
    ensures answer { result ≡ plain byte }
{
    byte.is_ascii_graphic() && byte != b'\\'
}

// Bytes that are shown as escaped text.
#[derive(Clone, Copy)]
pub struct Escaped<'a>(pub &'a [u8]);

impl fmt::Display for Escaped<'_> {
    ghost output = { λ text. Some (escaped text.0.now) };

    fn fmt<W: fmt::Write>(&self, f: &mut fmt::Formatter<W>) -> fmt::Result {
        match self.0 {
            [] => write!(f, "-"),
            b"-" => write!(f, "\\x2d"),
            bytes => {
                // As in `Hex`: a `for` and a `write_str` are no longer than a call that takes them as a closure.
                let mut text = [0; 64];
                for chunk in bytes.chunks(16) {
                    f.write_str(escaped_chunk(&mut text, chunk))?;
                }
                Ok(())
            }
        }
    }
}

// At most 16 bytes, each escaped, which are put at the front of `text`.
fn escaped_chunk<'a>(text: &'a mut [u8; 64], bytes: &[u8]) -> &'a str
    requires { length bytes.now ≤ 16 }
    ensures answer { result.now ≡ flat_map escaped_byte bytes.now }
{
    let mut len = 0;
    for &byte in bytes {
        if is_plain(byte) {
            text[len] = byte;
            len += 1;
        } else {
            let [high, low] = digits(byte);
            text[len..len + 4].copy_from_slice(&[b'\\', b'x', high, low]);
            len += 4;
        }
    }
    from_utf8(&text[..len]).unwrap()
}

// The bytes of which each was escaped, one after the other.
fn unescape_each(heap: Global, text: &[u8]) -> Result<Option<Vec<u8>>, AllocError>
    ensures answer { IfOk result (Undoes (flat_map escaped_byte) text.now) }
{
    let mut bytes = Vec::new(heap);
    let mut rest = text;
    while !rest.is_empty() {
        let Some((byte, more)) = read_unit(rest) else {
            return Ok(None);
        };
        bytes.push(byte)?;
        rest = more;
    }
    Ok(Some(bytes))
}

// The byte that was escaped first, and what follows.
fn read_unit(text: &[u8]) -> Option<(u8, &[u8])>
    ensures answer { UnitIn text.now result }
{
    match text {
        [byte, rest @ ..] if is_plain(*byte) => Some((*byte, rest)),
        [b'\\', b'x', high, low, rest @ ..] => Some((read_code(*high, *low)?, rest)),
        _ => None,
    }
}

// The byte that does not stand for itself and has these two digits.
fn read_code(high: u8, low: u8) -> Option<u8>
    ensures answer { CodeOf high low result }
{
    let byte = (16 * value_of(high)? + value_of(low)?) as u8;
    if high.is_ascii_uppercase() || low.is_ascii_uppercase() || is_plain(byte) {
        return None;
    }
    Some(byte)
}

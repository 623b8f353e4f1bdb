// A packet's first byte, length bytes and body.
ghost use Rattle.std.specs.Prelude.{◌≡◌, ◌+◌, length as len};
ghost use Rattle.frame.specs.Parts.{Within, told, parts_in, after_type, PartsLaw};

use crate::field::{BadField, Field};
use crate::first_byte::{PacketType, packet_type};
use crate::length::ops::read_length;

// The most bytes that may follow the remaining length.
pub const BODY_BYTES: usize = 540;

// What a packet's first byte announces, and its body with the place of the body's first byte.
#[derive(Clone, Copy)]
pub struct Parts<'a> {
    pub packet_type: PacketType,
    pub flags: u8,
    pub body: &'a [u8],
    pub place: usize,
}

const BAD_FIRST_BYTE: BadField = BadField {
    field: Field::FirstByte,
    place: 0,
};

const BAD_LENGTH: BadField = BadField {
    field: Field::RemainingLength,
    place: 1,
};

// Tells a whole packet's parts, or the bad field: an illegal first byte, or a remaining length that is not
// readable, above 540 or unlike the bytes that follow.
pub fn split_packet(bytes: &[u8]) -> Result<Parts<'_>, BadField>
    ensures answer { told result ≡ parts_in bytes.now }
    ensures bound { Within result (len bytes.now) }
{
    let (first, rest) = bytes.split_first().ok_or(BAD_FIRST_BYTE)?;
    let packet_type = packet_type(*first).ok_or(BAD_FIRST_BYTE)?;
    split_rest(packet_type, *first % 16, rest)
}

// The parts behind the first byte.
fn split_rest(packet_type: PacketType, flags: u8, rest: &[u8]) -> Result<Parts<'_>, BadField>
    ensures answer { told result ≡ after_type packet_type flags rest.now }
    ensures bound { Within result (len rest.now + 1) }
{
    let (number, count) = read_length(rest).ok_or(BAD_LENGTH)?;
    let number = number as usize;
    if number > BODY_BYTES || rest.len() != count + number {
        return Err(BAD_LENGTH);
    }
    Ok(Parts {
        packet_type,
        flags,
        body: &rest[count..],
        place: 1 + count,
    })
}

// A legal first byte, the shortest form of the body's length and a body of at most 540 bytes are told
// apart as just these; and whatever is told apart had a legal first byte and that body at its end.
pub fn parts_law()
    ensures law { PartsLaw }
{}

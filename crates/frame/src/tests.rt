// Examples of first bytes, lengths and parts of packets.
use crate::first_byte::{PacketType, type_number};
use crate::length::ops::{read_length, write_length};
use crate::parts::split_packet;

// First bytes and the type that they announce: the last four are QoS 3, DUP at QoS 0, PUBREL without its flags and no type.
const FIRST_BYTES: [(u8, u8); 8] = [
    (0x10, 1),
    (0x3d, 3),
    (0x62, 6),
    (0xe0, 14),
    (0x36, 0),
    (0x38, 0),
    (0x60, 0),
    (0xf0, 0),
];

// Four bytes with the length at their front: longer forms of small numbers too, and (0, 0) for one that is unfinished.
const LENGTHS: [([u8; 4], u32, usize); 5] = [
    ([0x7f, 0, 0, 0], 127, 1),
    ([0xff, 0x7f, 9, 0], 16383, 2),
    ([0x80, 0x80, 0x80, 0x01], 2097152, 4),
    ([0x85, 0x80, 0x00, 0x00], 5, 3),
    ([0x80, 0x80, 0x80, 0x80], 0, 0),
];

// Three bytes and the number of the bad field: an illegal first byte, a length below and above what follows, one of four bytes.
const BAD_PARTS: [([u8; 3], u8); 4] = [
    ([0x41, 1, 0], 1),
    ([0x40, 0, 0], 2),
    ([0x40, 2, 0], 2),
    ([0x40, 0x81, 0x80], 2),
];

#[test]
fn first_bytes(rt: HostRuntime) {
    for (first, number) in FIRST_BYTES {
        assert!(rt; type_number(first) == number);
    }
}

#[test]
fn lengths(rt: HostRuntime) {
    for (bytes, number, count) in LENGTHS {
        assert!(rt; read_length(&bytes).unwrap_or((0, 0)) == (number, count));
    }
    assert!(rt; read_length(&[]).is_none());
    assert!(rt; write_length(268435456).is_none());
}

#[test]
fn bad_parts(rt: HostRuntime) {
    for (bytes, number) in BAD_PARTS {
        match split_packet(&bytes) {
            Ok(_) => assert!(rt; false),
            Err(bad) => assert!(rt; bad.field.number() == number),
        }
    }
}

#[test]
fn names(rt: HostRuntime) {
    match PacketType::PubRel.to_string(rt.alloc()) {
        Ok(name) => assert!(rt; name.as_str() == "PUBREL"),
        Err(_) => assert!(rt; false),
    }
}

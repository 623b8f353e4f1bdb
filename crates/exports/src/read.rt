// Reading a whole packet, for a caller in another language.
ghost use Rattle.std.specs.Prelude.{◌≡◌};
ghost use Rattle.frame.specs.FirstByte.{number_of};
ghost use Rattle.packets.specs.Filters.{entries_of, nth};
ghost use Rattle.packets.specs.Packet.{content};
ghost use Rattle.packets.specs.Reads.{reads};
ghost use Rattle.exports.specs.Read.{content_filter, entry_numbers, filter_numbers, named, numbers, read_numbers};

use frame::first_byte::PacketType;
use packets::packet::{Filters, Packet, ReadError};
use packets::reader::read;

// In place of the type's number, for a CONNECT of another level.
const OTHER_LEVEL: u8 = 15;

// In place of the QoS, for a filter that asks for none.
const NO_QOS: u8 = 3;

// What a packet says but for its filters, as numbers; those that a type does not have are 0.
#[repr(C)]
#[derive(Clone, Copy, Default)]
pub struct ReadOutcome {
    // The type's number; 15 for a CONNECT of another level, 0 for a bad field.
    pub packet_type: u8,
    // The bad field's number.
    pub field: u8,
    // DUP of a PUBLISH, session present of a CONNACK.
    pub flag: u8,
    // QoS of a PUBLISH, code of a CONNACK.
    pub grade: u8,
    pub id: u16,
    // Of the bad field, the client identifier or the topic.
    pub place: usize,
    // Of the client identifier or the topic; how many codes a SUBACK has.
    pub length: usize,
    pub payload_place: usize,
    pub payload_length: usize,
}

// A filter of a packet: 1 and its place, length and QoS, 3 where it asks for none; or all 0 where there is none.
#[repr(C)]
#[derive(Clone, Copy, Default)]
pub struct FilterOutcome {
    pub present: u8,
    pub qos: u8,
    pub place: usize,
    pub length: usize,
}

impl ReadOutcome {
    // A packet of a type, and nothing more.
    fn of(packet_type: PacketType) -> ReadOutcome
        ensures answer { result ≡ named (number_of packet_type) 0 }
    {
        ReadOutcome {
            packet_type: packet_type.number(),
            ..ReadOutcome::default()
        }
    }

    // A packet of a type with an identifier.
    fn with_id(packet_type: PacketType, id: u16) -> ReadOutcome
        ensures answer { result ≡ named (number_of packet_type) id }
    {
        ReadOutcome {
            id,
            ..ReadOutcome::of(packet_type)
        }
    }
}

// What a packet says but for its filters.
fn numbers_of(packet: &Packet<'_>) -> ReadOutcome
    ensures answer { result ≡ numbers (content packet.now) }
{
    match *packet {
        Packet::Connect { client, client_at } => ReadOutcome {
            place: client_at,
            length: client.len(),
            ..ReadOutcome::of(PacketType::Connect)
        },
        Packet::ConnAck {
            session_present,
            code,
        } => ReadOutcome {
            flag: u8::from(session_present),
            grade: code,
            ..ReadOutcome::of(PacketType::ConnAck)
        },
        Packet::Publish {
            dup,
            qos,
            topic,
            topic_at,
            id,
            payload,
            payload_at,
        } => ReadOutcome {
            flag: u8::from(dup),
            grade: qos.number(),
            id: id.unwrap_or(0),
            place: topic_at,
            length: topic.len(),
            payload_place: payload_at,
            payload_length: payload.len(),
            ..ReadOutcome::of(PacketType::Publish)
        },
        Packet::PubAck { id } => ReadOutcome::with_id(PacketType::PubAck, id),
        Packet::PubRec { id } => ReadOutcome::with_id(PacketType::PubRec, id),
        Packet::PubRel { id } => ReadOutcome::with_id(PacketType::PubRel, id),
        Packet::PubComp { id } => ReadOutcome::with_id(PacketType::PubComp, id),
        Packet::Subscribe { id, filters: _ } => ReadOutcome::with_id(PacketType::Subscribe, id),
        Packet::SubAck { id, codes } => ReadOutcome {
            length: codes.len(),
            ..ReadOutcome::with_id(PacketType::SubAck, id)
        },
        Packet::Unsubscribe { id, filters: _ } => ReadOutcome::with_id(PacketType::Unsubscribe, id),
        Packet::UnsubAck { id } => ReadOutcome::with_id(PacketType::UnsubAck, id),
        Packet::PingReq => ReadOutcome::of(PacketType::PingReq),
        Packet::PingResp => ReadOutcome::of(PacketType::PingResp),
        Packet::Disconnect => ReadOutcome::of(PacketType::Disconnect),
    }
}

// The filter with an index.
fn filter_of(filters: Filters<'_>, index: usize) -> FilterOutcome
    ensures answer { result ≡ entry_numbers (nth index (entries_of filters.entry)) }
{
    match filters.get(index) {
        Some(filter) => FilterOutcome {
            present: 1,
            qos: filter.qos.map_or(NO_QOS, |qos| qos.number()),
            place: filter.place,
            length: filter.bytes.len(),
        },
        None => FilterOutcome::default(),
    }
}

// The filter with an index of a packet.
fn packet_filter(packet: &Packet<'_>, index: usize) -> FilterOutcome
    ensures answer { result ≡ content_filter (content packet.now) index }
{
    match *packet {
        Packet::Subscribe { id: _, filters } | Packet::Unsubscribe { id: _, filters } => {
            filter_of(filters, index)
        }
        _ => FilterOutcome::default(),
    }
}

// Tells what a packet says, that its level is another, or its bad field.
#[unsafe(no_mangle)]
pub extern "C" fn merukpa_read(bytes: &[u8]) -> ReadOutcome
    ensures answer { result ≡ read_numbers (reads bytes.now) }
{
    match read(bytes) {
        Ok(packet) => numbers_of(&packet),
        Err(ReadError::Level) => ReadOutcome {
            packet_type: OTHER_LEVEL,
            ..ReadOutcome::default()
        },
        Err(ReadError::Bad(bad)) => ReadOutcome {
            field: bad.field.number(),
            place: bad.place,
            ..ReadOutcome::default()
        },
    }
}

// Tells the filter with an index of a SUBSCRIBE or an UNSUBSCRIBE.
#[unsafe(no_mangle)]
pub extern "C" fn merukpa_filter(bytes: &[u8], index: usize) -> FilterOutcome
    ensures answer { result ≡ filter_numbers (reads bytes.now) index }
{
    match read(bytes) {
        Ok(packet) => packet_filter(&packet, index),
        Err(_) => FilterOutcome::default(),
    }
}

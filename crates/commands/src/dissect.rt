// What a packet is, as a line.
ghost use Rattle.std.specs.Prelude.{◌≡◌, ◌++◌, length as len, Some, IfOk, string_bytes, codes};
ghost use Rattle.frame.specs.FirstByte.{name_of};
ghost use Rattle.packets.specs.Filters.{entries_of, entry_of};
ghost use Rattle.packets.specs.Packet.{content};
ghost use Rattle.packets.specs.Reads.{reads};
ghost use Rattle.commands.specs.Dissect.{ack_text, codes_text, content_text, dissect_text, entries_text, entry_text, filters_text, publish_head};

use frame::field::BadField;
use frame::first_byte::PacketType;
use lines::escape::Escaped;
use lines::hex::Hex;
use packets::packet::{Filter, Filters, Packet, ReadError};
use packets::reader::read;
use std::alloc::{AllocError, Global};
use std::fmt;
use topics::qos::Qos;

/// The packet's type and content, `level` for a CONNECT of another protocol level, or `bad FIELD PLACE`.
pub fn dissect_text(heap: Global, bytes: &[u8]) -> Result<String, AllocError>
    ensures answer { IfOk result (λ text. string_bytes text ≡ dissect_text (reads bytes.now)) }
{
    match read(bytes) {
        Ok(packet) => packet_text(heap, &packet),
        Err(ReadError::Level) => String::from_str(heap, "level\n"),
        Err(ReadError::Bad(BadField { field, place })) => {
            format!(in heap; "bad {} {place}\n", field.number())
        }
    }
}

/// The packet's type and content.
pub fn packet_text(heap: Global, packet: &Packet<'_>) -> Result<String, AllocError>
    ensures answer { IfOk result (λ text. string_bytes text ≡ content_text (content packet.now)) }
{
    match *packet {
        Packet::Connect { client, client_at } => {
            format!(in heap; "CONNECT client {} at {client_at}\n", Escaped(client))
        }
        Packet::ConnAck {
            session_present,
            code,
        } => format!(in heap;
            "CONNACK present {} code {code}\n",
            u8::from(session_present)
        ),
        Packet::Publish {
            dup,
            qos,
            topic,
            topic_at,
            id,
            payload,
            payload_at,
        } => {
            let mut text = publish_head(heap, dup, qos, id)?;
            write!(
                text,
                " topic {} at {topic_at} payload {} at {payload_at}\n",
                Escaped(topic),
                Hex(payload)
            )?;
            Ok(text)
        }
        Packet::PubAck { id } => ack_text(heap, PacketType::PubAck, id),
        Packet::PubRec { id } => ack_text(heap, PacketType::PubRec, id),
        Packet::PubRel { id } => ack_text(heap, PacketType::PubRel, id),
        Packet::PubComp { id } => ack_text(heap, PacketType::PubComp, id),
        Packet::Subscribe { id, filters } => filters_text(heap, PacketType::Subscribe, id, filters),
        Packet::SubAck { id, codes } => {
            format!(in heap; "SUBACK id {id} codes {}{}\n", codes.len(), Codes(codes))
        }
        Packet::Unsubscribe { id, filters } => filters_text(
            heap,
            PacketType::Unsubscribe,
            id,
            filters,
        ),
        Packet::UnsubAck { id } => ack_text(heap, PacketType::UnsubAck, id),
        Packet::PingReq => bare_text(heap, PacketType::PingReq),
        Packet::PingResp => bare_text(heap, PacketType::PingResp),
        Packet::Disconnect => bare_text(heap, PacketType::Disconnect),
    }
}

// The flags and the identifier of a PUBLISH, 0 where there is none.
fn publish_head(heap: Global, dup: bool, qos: Qos, id: Option<u16>) -> Result<String, AllocError>
    ensures answer { IfOk result (λ text. string_bytes text ≡ publish_head dup qos id) }
{
    format!(in heap;
        "PUBLISH dup {} qos {} id {}",
        u8::from(dup),
        qos.number(),
        id.unwrap_or(0)
    )
}

// A type and an identifier.
fn ack_text(heap: Global, packet_type: PacketType, id: u16) -> Result<String, AllocError>
    ensures answer { IfOk result (λ text. string_bytes text ≡ ack_text (name_of packet_type ++ codes " id ") id) }
{
    format!(in heap; "{} id {id}\n", packet_type.name())
}

// A type alone.
fn bare_text(heap: Global, packet_type: PacketType) -> Result<String, AllocError>
    ensures answer { IfOk result (λ text. string_bytes text ≡ name_of packet_type ++ codes "\n") }
{
    format!(in heap; "{}\n", packet_type.name())
}

// A type, an identifier and filters.
fn filters_text(
    heap: Global,
    packet_type: PacketType,
    id: u16,
    filters: Filters<'_>,
) -> Result<String, AllocError>
    ensures answer { IfOk result (λ text. string_bytes text ≡ filters_text (name_of packet_type) id (entries_of filters.entry)) }
{
    let (told, count) = told_and_counted(heap, filters)?;
    format!(in heap; "{} id {id} filters {count}{told}\n", packet_type.name())
}

// The filters, one after the other, and how many they are.
fn told_and_counted(heap: Global, filters: Filters<'_>) -> Result<(String, usize), AllocError>
    ensures answer { IfOk result (λ p. (string_bytes p.0 ≡ entries_text (entries_of filters.entry)) × (p.1 ≡ len (entries_of filters.entry))) }
{
    let mut text = String::new(heap);
    // By index: a filter is told by `get`, and the first index at which there is none is their number.
    for index in 0..filters.count {
        let Some(filter) = filters.get(index) else {
            return Ok((text, index));
        };
        write!(text, "{}", Told(filter))?;
    }
    Ok((text, filters.count))
}

// A filter that is shown with its place and the quality of service that it asks for, if any.
#[derive(Clone, Copy)]
struct Told<'a>(Filter<'a>);

impl fmt::Display for Told<'_> {
    ghost output = { λ told. Some (entry_text (entry_of told.0)) };

    fn fmt<W: fmt::Write>(&self, f: &mut fmt::Formatter<W>) -> fmt::Result {
        let Filter { bytes, place, qos } = self.0;
        write!(f, " {} at {place}", Escaped(bytes))?;
        match qos {
            Some(qos) => write!(f, " qos {}", qos.number()),
            None => Ok(()),
        }
    }
}

// Codes that are shown one after the other, by a `for` as in `lines::hex::Hex`.
#[derive(Clone, Copy)]
struct Codes<'a>(&'a [u8]);

impl fmt::Display for Codes<'_> {
    ghost output = { λ codes. Some (codes_text codes.0.now) };

    fn fmt<W: fmt::Write>(&self, f: &mut fmt::Formatter<W>) -> fmt::Result {
        for &code in self.0 {
            write!(f, " {code}")?;
        }
        Ok(())
    }
}

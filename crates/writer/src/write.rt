// Packets as bytes.
ghost use Rattle.std.specs.Prelude.{◌≡◌, true, [], length as len, MatchOption};
ghost use Rattle.frame.specs.Number.{number_bytes};
ghost use Rattle.topics.specs.Text.{every};
ghost use Rattle.packets.specs.Bytes.{bytes_of, is_id, lawful, lawful_flow, up_to_eight};
ghost use Rattle.packets.specs.Filters.{entries_of};
ghost use Rattle.packets.specs.Packet.{connack, connect, content, publish, suback};
ghost use Rattle.packets.specs.Reads.{filters_of, is_code};
ghost use Rattle.writer.specs.Out.{Sent, Written};
ghost use Rattle.writer.specs.Write.{SentAs, first_byte_of};

use crate::filters::held;
use crate::out::{Image, WriteError};
use frame::first_byte::PacketType;
use frame::number::write_number;
use packets::codes::{MAX_RETURN_CODE, is_code};
use packets::packet::{Filters, MAX_FILTERS, MAX_PAYLOAD, PROTOCOL_LEVEL, PROTOCOL_NAME, Packet};
use topics::names::is_topic_name;
use topics::qos::Qos;
use topics::text::is_text;

// Bit 3 of a PUBLISH's first byte.
const DUP: u8 = 8;

/// Writes the packet at the buffer's start, RETAIN and keep-alive 0, and answers its length; the rest of the buffer stays.
/// Too short a buffer is refused with the length needed, then a packet that may not be sent; either leaves the buffer as it was.
#[tactic(auto, unfolding(packets::specs::Bytes::lawful, packets::specs::Bytes::bytes_of))]
pub fn write(packet: &Packet<'_>, out: &mut [u8]) -> Result<usize, WriteError>
    ensures written { Written (lawful (content packet.now)) (bytes_of (content packet.now)) result out.old out.new }
{
    match packet {
        Packet::Connect { client, .. } => write_connect(client, out),
        Packet::ConnAck {
            session_present,
            code,
        } => write_connack(*session_present, *code, out),
        Packet::Publish {
            dup,
            qos,
            topic,
            id,
            payload,
            ..
        } => write_publish(*dup, *qos, topic, *id, payload, out),
        Packet::PubAck { id } => write_ack(PacketType::PubAck, *id, out),
        Packet::PubRec { id } => write_ack(PacketType::PubRec, *id, out),
        Packet::PubRel { id } => write_ack(PacketType::PubRel, *id, out),
        Packet::PubComp { id } => write_ack(PacketType::PubComp, *id, out),
        Packet::Subscribe { id, filters } => write_filters(true, *id, filters, out),
        Packet::SubAck { id, codes } => write_suback(*id, codes, out),
        Packet::Unsubscribe { id, filters } => write_filters(false, *id, filters, out),
        Packet::UnsubAck { id } => write_ack(PacketType::UnsubAck, *id, out),
        Packet::PingReq => write_empty(PacketType::PingReq, out),
        Packet::PingResp => write_empty(PacketType::PingResp, out),
        Packet::Disconnect => write_empty(PacketType::Disconnect, out),
    }
}

// The first byte of a packet of this type; of a PUBLISH, the one with no flag set.
fn first_byte(packet_type: PacketType) -> u8
    ensures answer { result ≡ first_byte_of packet_type }
{
    let flags = match packet_type {
        PacketType::PubRel | PacketType::Subscribe | PacketType::Unsubscribe => 2,
        _ => 0,
    };
    16 * packet_type.number() + flags
}

fn write_connect(client: &[u8], out: &mut [u8]) -> Result<usize, WriteError>
    ensures sent { SentAs (connect client.now 0) result out.old out.new }
{
    let image = Image {
        first: first_byte(PacketType::Connect),
        body: &[
            &PROTOCOL_NAME,
            &[PROTOCOL_LEVEL, 0, 0, 0],
            &text_length(client),
            client,
        ],
    };
    image.write_to(is_text(client), out)
}

// The two bytes that announce a text.
fn text_length(text: &[u8]) -> [u8; 2]
    ensures answer { result ≡ number_bytes (len text.now) }
{
    write_number((text.len() % 65536) as u16)
}

fn write_connack(present: bool, code: u8, out: &mut [u8]) -> Result<usize, WriteError>
    ensures sent { SentAs (connack present code) result out.old out.new }
{
    let image = Image {
        first: first_byte(PacketType::ConnAck),
        body: &[&[u8::from(present), code]],
    };
    image.write_to(code <= MAX_RETURN_CODE, out)
}

fn write_publish<'a>(
    dup: bool,
    qos: Qos,
    topic: &'a [u8],
    id: Option<u16>,
    payload: &'a [u8],
    out: &mut [u8],
) -> Result<usize, WriteError>
    ensures sent { SentAs (publish dup qos topic.now 0 id payload.now 0) result out.old out.new }
{
    let number = id.map(write_number);
    let image = Image {
        first: first_byte(PacketType::Publish) + DUP * u8::from(dup) + 2 * qos.number(),
        body: &[&text_length(topic), topic, id_bytes(&number), payload],
    };
    let lawful = is_topic_name(topic)
        && is_lawful_flow(dup, qos, id)
        && payload.len() <= MAX_PAYLOAD;
    image.write_to(lawful, out)
}

// The bytes of an identifier, or none where there is none. By match: a chain of as_ref, map_or and as_slice says no more.
fn id_bytes(number: &Option<[u8; 2]>) -> &[u8]
    ensures answer { MatchOption number.now (result.now ≡ []) (λ bytes. result.now ≡ bytes) }
{
    match number {
        Some(bytes) => bytes,
        None => &[],
    }
}

// A packet of nothing but its identifier.
fn write_ack(packet_type: PacketType, id: u16, out: &mut [u8]) -> Result<usize, WriteError>
    ensures sent { Sent (is_id id) (first_byte_of packet_type) (number_bytes id) result out.old out.new }
{
    let image = Image {
        first: first_byte(packet_type),
        body: &[&write_number(id)],
    };
    image.write_to(is_id(id), out)
}

// A packet of nothing but its first byte and its length, 0.
fn write_empty(packet_type: PacketType, out: &mut [u8]) -> Result<usize, WriteError>
    ensures sent { Sent true (first_byte_of packet_type) [] result out.old out.new }
{
    let image = Image {
        first: first_byte(packet_type),
        body: &[],
    };
    image.write_to(true, out)
}

// A SUBSCRIBE, whose filters are graded, or an UNSUBSCRIBE: the filters of the part are copied. The flag says which of the two is
// written; the filters carry their own, and the two are compared.
fn write_filters(
    graded: bool,
    id: u16,
    filters: &Filters<'_>,
    out: &mut [u8],
) -> Result<usize, WriteError>
    ensures sent { SentAs (filters_of graded id (entries_of filters.now)) result out.old out.new }
{
    let packet_type = if graded {
        PacketType::Subscribe
    } else {
        PacketType::Unsubscribe
    };
    let (count, bytes) = held(filters);
    let image = Image {
        first: first_byte(packet_type),
        body: &[&write_number(id), bytes],
    };
    // One filter to eight, with a quality of service where one is asked for and only there.
    let lawful = is_id(id) && is_up_to_eight(count) && graded == filters.with_qos;
    image.write_to(lawful, out)
}

fn write_suback(id: u16, codes: &[u8], out: &mut [u8]) -> Result<usize, WriteError>
    ensures sent { SentAs (suback id codes.now) result out.old out.new }
{
    let image = Image {
        first: first_byte(PacketType::SubAck),
        body: &[&write_number(id), codes],
    };
    let lawful = is_id(id) && is_up_to_eight(codes.len()) && are_codes(codes);
    image.write_to(lawful, out)
}

fn is_id(id: u16) -> bool
    ensures answer { result ≡ is_id id }
{
    id > 0
}

fn is_up_to_eight(count: usize) -> bool
    ensures answer { result ≡ up_to_eight count }
{
    (1..=MAX_FILTERS).contains(&count)
}

fn are_codes(codes: &[u8]) -> bool
    ensures answer { result ≡ every is_code codes.now }
{
    codes.iter().all(|code| is_code(*code))
}

// An identifier stands exactly where QoS is above 0, and only there may DUP.
fn is_lawful_flow(dup: bool, qos: Qos, id: Option<u16>) -> bool
    ensures answer { result ≡ lawful_flow dup qos id }
{
    match (qos, id) {
        (Qos::AtMostOnce, None) => !dup,
        (Qos::AtMostOnce, Some(_)) | (_, None) => false,
        (_, Some(id)) => is_id(id),
    }
}

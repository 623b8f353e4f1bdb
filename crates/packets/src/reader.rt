// The reader of whole packets.
ghost use Rattle.std.specs.Prelude.{◌≡◌};
ghost use Rattle.packets.specs.Packet.{outcome};
ghost use Rattle.packets.specs.Reads.{body_in, reads};

use crate::connect::{read_connack, read_connect};
use crate::cursor::Cursor;
use crate::packet::{Packet, ReadError};
use crate::publish::read_publish;
use crate::subscribe::{read_suback, read_subscribe};
use frame::first_byte::PacketType;
use frame::parts::split_packet;

/// The packet that the bytes are. Refuses a CONNECT of another protocol level, and else at the first bad field.
pub fn read(bytes: &[u8]) -> Result<Packet<'_>, ReadError>
    ensures answer { outcome result ≡ reads bytes.now }
{
    let parts = split_packet(bytes)?;
    let cursor = Cursor {
        bytes: parts.body,
        at: parts.place,
    };
    read_body(parts.packet_type, parts.flags, cursor)
}

// The body of a packet of this type, with the flags of its first byte.
fn read_body(
    packet_type: PacketType,
    flags: u8,
    mut cursor: Cursor<'_>,
) -> Result<Packet<'_>, ReadError>
    ensures answer { outcome result ≡ body_in packet_type flags cursor.entry.bytes.now cursor.entry.at }
{
    match packet_type {
        PacketType::Connect => read_connect(cursor),
        PacketType::ConnAck => read_connack(cursor),
        PacketType::Publish => read_publish(flags, cursor),
        PacketType::PubAck => Ok(Packet::PubAck {
            id: cursor.only_identifier()?,
        }),
        PacketType::PubRec => Ok(Packet::PubRec {
            id: cursor.only_identifier()?,
        }),
        PacketType::PubRel => Ok(Packet::PubRel {
            id: cursor.only_identifier()?,
        }),
        PacketType::PubComp => Ok(Packet::PubComp {
            id: cursor.only_identifier()?,
        }),
        PacketType::Subscribe => read_subscribe(true, cursor),
        PacketType::SubAck => read_suback(cursor),
        PacketType::Unsubscribe => read_subscribe(false, cursor),
        PacketType::UnsubAck => Ok(Packet::UnsubAck {
            id: cursor.only_identifier()?,
        }),
        PacketType::PingReq => cursor.end().and(Ok(Packet::PingReq)),
        PacketType::PingResp => cursor.end().and(Ok(Packet::PingResp)),
        PacketType::Disconnect => cursor.end().and(Ok(Packet::Disconnect)),
    }
}

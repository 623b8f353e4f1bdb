// PUBLISH.
ghost use Rattle.std.specs.Prelude.{◌≡◌, ℕ, Bool, List};
ghost use Rattle.packets.specs.Fields.{onward};
ghost use Rattle.packets.specs.Packet.{outcome};
ghost use Rattle.packets.specs.Reads.{after_topic, payload_in, publish_in};

use crate::cursor::{Cursor, bad, read_qos};
use crate::packet::{MAX_PAYLOAD, Packet, ReadError};
use frame::field::Field;
use topics::names::is_topic_name;
use topics::qos::Qos;

// A PUBLISH from its topic on, with the flags of its first byte.
pub(crate) fn read_publish(flags: u8, mut cursor: Cursor<'_>) -> Result<Packet<'_>, ReadError>
    ensures answer { outcome result ≡ publish_in flags cursor.entry.bytes.now cursor.entry.at }
{
    let qos = read_qos(flags / 2 % 4, Field::FirstByte, 0)?;
    let topic_at = cursor.at;
    let topic = cursor.text()?;
    if !is_topic_name(topic) {
        return Err(bad(Field::TopicName, topic_at));
    }
    let id = flow_identifier(qos, &mut cursor)?;
    if cursor.bytes.len() > MAX_PAYLOAD {
        return Err(bad(Field::Payload, cursor.at));
    }
    Ok(Packet::Publish {
        dup: flags >= 8,
        qos,
        topic,
        topic_at,
        id,
        payload: cursor.bytes,
        payload_at: cursor.at,
    })
}

// The packet identifier, unless QoS is 0.
fn flow_identifier(qos: Qos, cursor: &mut Cursor<'_>) -> Result<Option<u16>, ReadError>
    ensures answer { (dup : Bool) (topic : List ℕ) (place : ℕ) → onward (λ id. payload_in dup qos topic place id cursor.new.bytes.now cursor.new.at) result
        ≡ after_topic dup qos topic place cursor.old.bytes.now cursor.old.at }
{
    match qos {
        Qos::AtMostOnce => Ok(None),
        Qos::AtLeastOnce | Qos::ExactlyOnce => Ok(Some(cursor.identifier()?)),
    }
}

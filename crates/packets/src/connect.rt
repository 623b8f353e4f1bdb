// CONNECT and CONNACK.
ghost use Rattle.std.specs.Prelude.{◌≡◌};
ghost use Rattle.std.specs.Str.{bytes_eq};
ghost use Rattle.packets.specs.Packet.{outcome};
ghost use Rattle.packets.specs.Reads.{client_in, connack_in, connect_in, protocol_name};

use crate::codes::MAX_RETURN_CODE;
use crate::cursor::{Cursor, bad};
use crate::packet::{PROTOCOL_LEVEL, PROTOCOL_NAME, Packet, ReadError};
use frame::field::Field;
use topics::text::is_text;

// A CONNECT from its protocol name on. Another level ends the reading, the flags are all 0, and the keep-alive has no effect.
pub(crate) fn read_connect(mut cursor: Cursor<'_>) -> Result<Packet<'_>, ReadError>
    ensures answer { outcome result ≡ connect_in cursor.entry.bytes.now cursor.entry.at }
{
    let name_at = cursor.at;
    let name = cursor.take(PROTOCOL_NAME.len())?;
    if !is_protocol_name(name) {
        return Err(bad(Field::ProtocolName, name_at));
    }
    if cursor.byte()? != PROTOCOL_LEVEL {
        return Err(ReadError::Level);
    }
    let flags_at = cursor.at;
    if cursor.byte()? != 0 {
        return Err(bad(Field::Flags, flags_at));
    }
    cursor.number()?;
    read_client(cursor)
}

// Beside `==`, as its clause says it in the words of the definitions.
fn is_protocol_name(name: &[u8]) -> bool
    ensures answer { result ≡ bytes_eq name.now protocol_name }
{
    name == PROTOCOL_NAME.as_slice()
}

// The client identifier, and the end. Inlined: the packet is written once, into the reader's answer.
#[inline(always)]
fn read_client(mut cursor: Cursor<'_>) -> Result<Packet<'_>, ReadError>
    ensures answer { outcome result ≡ client_in cursor.entry.bytes.now cursor.entry.at }
{
    let client_at = cursor.at;
    let client = cursor.text()?;
    if !is_text(client) {
        return Err(bad(Field::ClientIdentifier, client_at));
    }
    cursor.end()?;
    Ok(Packet::Connect { client, client_at })
}

// A CONNACK from its session present byte on.
pub(crate) fn read_connack(mut cursor: Cursor<'_>) -> Result<Packet<'_>, ReadError>
    ensures answer { outcome result ≡ connack_in cursor.entry.bytes.now cursor.entry.at }
{
    let present_at = cursor.at;
    let present = cursor.byte()?;
    if present > 1 {
        return Err(bad(Field::Flags, present_at));
    }
    let code_at = cursor.at;
    let code = cursor.byte()?;
    if code > MAX_RETURN_CODE {
        return Err(bad(Field::QosOrCode, code_at));
    }
    cursor.end()?;
    Ok(Packet::ConnAck {
        session_present: present == 1,
        code,
    })
}

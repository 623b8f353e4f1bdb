// SUBSCRIBE, UNSUBSCRIBE and SUBACK.
ghost use Rattle.std.specs.Prelude.{◌≡◌};
ghost use Rattle.packets.specs.Filters.{entries_of};
ghost use Rattle.packets.specs.Packet.{content, outcome};
ghost use Rattle.packets.specs.Reads.{filters_of, passed, some_codes, suback_in, subscribe_in};

use crate::codes::is_code;
use crate::cursor::{Cursor, bad};
use crate::filters::read_filters;
use crate::packet::{Filters, MAX_FILTERS, Packet, ReadError};
use frame::field::Field;

// A SUBSCRIBE, or without QoS bytes an UNSUBSCRIBE, from its identifier on. The flag is the one that `Filters` carries.
// Inlined: the packet is written once, into the reader's answer.
#[inline(always)]
pub(crate) fn read_subscribe(
    with_qos: bool,
    mut cursor: Cursor<'_>,
) -> Result<Packet<'_>, ReadError>
    ensures answer { outcome result ≡ subscribe_in with_qos cursor.entry.bytes.now cursor.entry.at }
{
    let id = cursor.identifier()?;
    let filters = read_filters(with_qos, cursor)?;
    Ok(with_filters(with_qos, id, filters))
}

fn with_filters(with_qos: bool, id: u16, filters: Filters<'_>) -> Packet<'_>
    ensures answer { content result ≡ filters_of with_qos id (entries_of filters.entry) }
{
    if with_qos {
        Packet::Subscribe { id, filters }
    } else {
        Packet::Unsubscribe { id, filters }
    }
}

// A SUBACK from its identifier on.
pub(crate) fn read_suback(mut cursor: Cursor<'_>) -> Result<Packet<'_>, ReadError>
    ensures answer { outcome result ≡ suback_in cursor.entry.bytes.now cursor.entry.at }
{
    let id = cursor.identifier()?;
    judge_codes(cursor)?;
    Ok(Packet::SubAck {
        id,
        codes: cursor.bytes,
    })
}

// Passes one code to eight, up to the packet's end.
fn judge_codes(cursor: Cursor<'_>) -> Result<(), ReadError>
    ensures answer { passed cursor.entry.bytes.now result ≡ some_codes cursor.entry.bytes.now cursor.entry.at }
{
    if cursor.bytes.is_empty() {
        return Err(cursor.missing());
    }
    // By index: a refused code is told with its place.
    for (i, code) in cursor.bytes.iter().enumerate() {
        if i == MAX_FILTERS {
            return Err(bad(Field::End, cursor.at + i));
        }
        if !is_code(*code) {
            return Err(bad(Field::QosOrCode, cursor.at + i));
        }
    }
    Ok(())
}

// Reading filters, and the question for one of them.
ghost use Rattle.std.specs.Prelude.{◌≡◌};
ghost use Rattle.packets.specs.Filters.{counted, entries_of, filter_in, filters_in, found, maybe_entry, nth, some_filters, told};

use crate::cursor::{Cursor, bad, read_qos};
use crate::packet::{Filter, Filters, MAX_FILTERS, ReadError};
use frame::field::Field;
use topics::names::is_topic_filter;

impl<'a> Filters<'a> {
    /// The filter with this index, counted from 0, or none from the count on.
    pub fn get(self, index: usize) -> Option<Filter<'a>>
        ensures answer { maybe_entry result ≡ nth index (entries_of self.entry) }
    {
        if index >= self.count {
            return None;
        }
        let mut cursor = Cursor::new(self.part, self.place)?;
        for _ in 0..index {
            read_filter(self.with_qos, &mut cursor).ok()?;
        }
        read_filter(self.with_qos, &mut cursor).ok()
    }
}

// One filter: with a QoS byte in a SUBSCRIBE, without in an UNSUBSCRIBE.
fn read_filter<'a>(with_qos: bool, cursor: &mut Cursor<'a>) -> Result<Filter<'a>, ReadError>
    ensures answer { found cursor.new.bytes.now cursor.new.at result ≡ filter_in with_qos cursor.old.bytes.now cursor.old.at }
{
    let place = cursor.at;
    let bytes = cursor.text()?;
    if !is_topic_filter(bytes) {
        return Err(bad(Field::TopicFilter, place));
    }
    if !with_qos {
        return Ok(Filter {
            bytes,
            place,
            qos: None,
        });
    }
    let qos_at = cursor.at;
    let number = cursor.byte()?;
    let qos = read_qos(number, Field::QosOrCode, qos_at)?;
    Ok(Filter {
        bytes,
        place,
        qos: Some(qos),
    })
}

// One filter to eight, up to the packet's end. Flag and cursor go on one by one: what is read later stands on the cursor alone.
pub(crate) fn read_filters(with_qos: bool, cursor: Cursor<'_>) -> Result<Filters<'_>, ReadError>
    ensures answer { told result ≡ some_filters with_qos cursor.entry.bytes.now cursor.entry.at }
{
    if cursor.bytes.is_empty() {
        return Err(cursor.missing());
    }
    let part = cursor.bytes;
    let place = cursor.at;
    let count = count_filters(with_qos, cursor)?;
    Ok(Filters {
        part,
        place,
        count,
        with_qos,
    })
}

// How many filters there are up to the packet's end, at most eight. Counted: the count is the answer.
fn count_filters(with_qos: bool, mut cursor: Cursor<'_>) -> Result<usize, ReadError>
    ensures answer { counted with_qos cursor.entry.bytes.now cursor.entry.at result ≡ filters_in with_qos 8 cursor.entry.bytes.now cursor.entry.at }
{
    for count in 0..MAX_FILTERS {
        if cursor.bytes.is_empty() {
            return Ok(count);
        }
        read_filter(with_qos, &mut cursor)?;
    }
    cursor.end()?;
    Ok(MAX_FILTERS)
}

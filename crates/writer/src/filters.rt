// How much of a part is filters.
ghost use Rattle.std.specs.Prelude.{◌≡◌, [], ◌∷◌, ◌++◌, MatchOption};
ghost use Rattle.packets.specs.Bytes.{entry_bytes};
ghost use Rattle.packets.specs.Filters.{Entry, entries_of, entry_of};
ghost use Rattle.writer.specs.Filters.{Follows, Leads, Spans};

use packets::packet::{Filter, Filters};

// How many filters the part holds, and the bytes that they take: none where the part would end beyond the last index.
pub(crate) fn held<'a>(filters: &Filters<'a>) -> (usize, &'a [u8])
    ensures answer { Spans (entries_of filters.now) filters.now.with_qos result.0 result.1.now }
{
    let mut left = *filters;
    while let Some(rest) = behind_first(left) {
        left = rest;
    }
    let used = filters.part.len() - left.part.len();
    (filters.count - left.count, &filters.part[..used])
}

// The filters behind the first, or none where there is no first.
fn behind_first(filters: Filters<'_>) -> Option<Filters<'_>>
    ensures answer { MatchOption result (entries_of filters.entry ≡ []) (λ rest. (e : Entry) × Follows filters.entry (e ∷ []) rest) }
{
    let first = filters.get(0)?;
    let rest = behind(filters.part, first);
    Some(Filters {
        part: rest,
        place: filters.place + (filters.part.len() - rest.len()),
        count: filters.count - 1,
        with_qos: filters.with_qos,
    })
}

// The bytes behind the filter that a part begins with.
fn behind<'a>(part: &'a [u8], first: Filter<'_>) -> &'a [u8]
    requires leads { Leads part.now (entry_of first) }
    ensures answer { part.now ≡ entry_bytes (entry_of first.entry) ++ result.now }
{
    let width = 2 + first.bytes.len() + usize::from(first.qos.is_some());
    &part[width..]
}

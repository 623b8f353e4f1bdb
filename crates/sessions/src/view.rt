// Views of session rows: read, asked and written.
ghost use Rattle.std.specs.Prelude.{◌≡◌, true, [], ◌∷◌, length, is_some, IfSome, MatchOption};
ghost use Rattle.std.specs.Option.{option_map};
ghost use Rattle.rows.specs.Write.{Written};
ghost use Rattle.topics.specs.Names.{is_client_id};
ghost use Rattle.topics.specs.Subscription.{subscribed};
ghost use Rattle.sessions.specs.Session.{Session, decode, filter_in, filters_in, stands};
ghost use Rattle.sessions.specs.View.{Begins, Ends, filters_of, is_row, place, read, row_of, session_of};

use rows::text::split_text;
use rows::write::{Unwritten, write_all};
use topics::names::{is_client_identifier, is_topic_filter};
use topics::qos::Qos;
use topics::subscription::Subscription;

/// The most filters that a session has.
// The packets' MAX_FILTERS again, as a row's byte: for this one number rows would stand on packets.
pub const MAX_FILTERS: u8 = 8;

/// The filters of a session row as one part of it and their number.
// The row's own count and what follows it: reading allocates nothing. No invariant says that they are whole: reading tells that of
// filters that are not yet known to be.
#[derive(Clone, Copy)]
pub struct Filters<'a> {
    count: u8,
    part: &'a [u8],
}

/// A session row: its client identifier and its filters, borrowed from the row's bytes.
// Open to any client identifier and no invariant, which would ask more of callers: `is_lawful` tells whether it is a row's.
#[derive(Clone, Copy)]
pub struct SessionRow<'a> {
    pub client: &'a [u8],
    pub filters: Filters<'a>,
}

impl<'a> SessionRow<'a> {
    /// The session in these bytes, or none where they are against the layout.
    #[tactic(auto, unfolding(crate::specs::Session::decode))]
    pub fn read(bytes: &'a [u8]) -> Option<SessionRow<'a>>
        ensures answer { option_map session_of result ≡ decode bytes.now }
        ensures lawful { IfSome result (λ v. is_row v ≡ true) }
    {
        let (client, rest) = split_text(bytes)?;
        let (count, part) = rest.split_first()?;
        let filters = Filters {
            count: *count,
            part,
        };
        let row = SessionRow { client, filters };
        row.is_lawful().then_some(row)
    }

    /// A session without filters.
    pub fn new(client: &'a [u8]) -> SessionRow<'a>
        ensures answer { session_of result ≡ record { client = client.entry.now; filters = [] } }
        ensures lawful { is_row result ≡ is_client_id client.now }
    {
        let filters = Filters {
            count: 0,
            part: &[],
        };
        SessionRow { client, filters }
    }

    /// Writes the row at the buffer's start and answers its length; refuses a client identifier or filters against the layout, then a buffer too small.
    pub fn write(&self, out: &mut [u8]) -> Result<usize, Unwritten>
        ensures buffer { Written (row_of self.now) result out.old out.new }
    {
        if !self.is_lawful() {
            return Err(Unwritten::Unlawful);
        }
        let Filters { count, part } = self.filters;
        write_all(
            &[&[self.client.len() as u8], self.client, &[count], part],
            out,
        )
    }

    /// Whether the parts are those of a row.
    pub fn is_lawful(&self) -> bool
        ensures answer { result ≡ is_row self.now }
    {
        is_client_identifier(self.client)
            && self.filters.count <= MAX_FILTERS
            && self.filters.are_whole()
    }
}

impl<'a> Filters<'a> {
    /// How many there are.
    pub fn len(&self) -> u8
        ensures answer { result ≡ self.now.count }
        ensures listed { is_some (filters_in self.now.count self.now.part.now) ≡ true → length (filters_of self.now) ≡ result }
    {
        self.count
    }

    /// The subscription at this place, counted from 0, or none.
    pub fn get(&self, i: u8) -> Option<Subscription<'a>>
        ensures answer { option_map subscribed result ≡ place (filters_of self.now) i }
    {
        let (first, rest) = self.split_first()?;
        if i == 0 { Some(first) } else { rest.get(i - 1) }
    }

    // The first subscription and those after it. The recursions go by it, as on a slice: an iterator would state six ghost members for them.
    fn split_first(&self) -> Option<(Subscription<'a>, Filters<'a>)>
        ensures front { MatchOption result (Ends self.now) (λ p. Begins self.now (subscribed p.0) p.1) }
        ensures listed { MatchOption result (filters_of self.now ≡ []) (λ p. filters_of self.now ≡ subscribed p.0 ∷ filters_of p.1) }
    {
        let count = self.count.checked_sub(1)?;
        let (first, part) = read_filter(self.part)?;
        Some((first, Filters { count, part }))
    }

    // Whether the part is exactly so many subscriptions, no filter twice.
    fn are_whole(&self) -> bool
        ensures answer { result ≡ is_some (filters_in self.now.count self.now.part.now) }
    {
        match self.split_first() {
            Some((first, rest)) => rest.are_whole() && !rest.contain(first.filter),
            None => self.count == 0 && self.part.is_empty(),
        }
    }

    // Whether one of the subscriptions has this filter.
    fn contain(&self, filter: &[u8]) -> bool
        ensures answer { result ≡ stands filter.now (filters_of self.now) }
    {
        match self.split_first() {
            Some((first, rest)) => filter == first.filter || rest.contain(filter),
            None => false,
        }
    }
}

// The subscription at the front, and what follows.
#[tactic(auto, unfolding(crate::specs::Session::filter_in))]
fn read_filter(bytes: &[u8]) -> Option<(Subscription<'_>, &[u8])>
    ensures answer { read result ≡ filter_in bytes.now }
{
    let (qos, rest) = bytes.split_first()?;
    let qos = Qos::try_from(*qos).ok()?;
    let (filter, after) = split_text(rest)?;
    is_topic_filter(filter).then_some((Subscription { filter, qos }, after))
}

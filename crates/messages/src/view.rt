// Views of message rows: read and asked.
ghost use Rattle.std.specs.Prelude.{◌≡◌, ℕ, suc, ◌<◌, ◌^◌, IfSome, ◌∷◌, not, ◌&&◌, ◌||◌, length, is_some, MatchOption, None, ◌==◌, nat_le, nat_lt, slice_index_or};
ghost use Rattle.std.specs.Option.{option_map};
ghost use Rattle.topics.specs.Names.{is_topic_name};
ghost use Rattle.messages.specs.Message.{decode, max_payload, number_in, origin_in, origin_of, sessions};
ghost use Rattle.messages.specs.Target.{add_front, target_in, targets_in};
ghost use Rattle.messages.specs.View.{message_of, owed, rest_of, targets_of, with_rest};

use crate::parts::{Origin, Target};
use rows::text::split_text;
use topics::names::is_topic_name;

/// How many sessions there are.
pub const SESSIONS: u8 = 32;

/// The most bytes that a payload has.
// The packets' MAX_PAYLOAD again: for this one number rows would stand on packets.
pub const MAX_PAYLOAD: usize = 256;

// Stands in a row in place of a session where there is no origin.
const NO_SESSION: u8 = 255;

/// The targets of a message row: their map, and the row from the first target on.
#[derive(Clone, Copy)]
pub struct Targets<'a> {
    map: u32,
    tail: &'a [u8],
}

/// A message row: rank, origin, targets, topic and payload, borrowed from the row's bytes.
#[derive(Clone, Copy)]
pub struct MessageRow<'a> {
    pub rank: u32,
    pub origin: Option<Origin>,
    pub targets: Targets<'a>,
    pub topic: &'a [u8],
    pub payload: &'a [u8],
}

impl<'a> MessageRow<'a> {
    /// The message in these bytes, or none where they are against the layout.
    #[tactic(auto, unfolding(crate::specs::Message::decode))]
    pub fn read(bytes: &'a [u8]) -> Option<MessageRow<'a>>
        ensures answer { option_map message_of result ≡ decode bytes.now }
    {
        let (rank, after_rank) = read_number(bytes)?;
        let (origin, after_origin) = read_origin(after_rank)?;
        let (map, tail) = read_number(after_origin)?;
        let targets = Targets { map, tail };
        let (topic, payload) = split_text(targets.behind()?)?;
        let row = MessageRow {
            rank,
            origin,
            targets,
            topic,
            payload,
        };
        row.is_message().then_some(row)
    }

    // Whether parts that were read apart make a message together.
    fn is_message(&self) -> bool
        ensures answer { result ≡ (nat_lt 0 self.now.rank && (is_topic_name self.now.topic.now && (nat_le (length self.now.payload.now) max_payload && (is_some self.now.origin || not (self.now.targets.map == 0))))) }
    {
        self.rank > 0
            && is_topic_name(self.topic)
            && self.payload.len() <= MAX_PAYLOAD
            && (self.origin.is_some() || self.targets.map != 0)
    }
}

impl<'a> Targets<'a> {
    /// What this session is owed, or none where it is no target.
    pub fn get(&self, session: u8) -> Option<Target>
        ensures answer { result ≡ slice_index_or (targets_of self.now) session None }
    {
        if session >= SESSIONS {
            return None;
        }
        let mut rest = *self;
        for _ in 0..session {
            rest = rest.split_first()?.1;
        }
        rest.split_first()?.0
    }

    // What the first session is owed, and the targets of those after it; none where the first target's byte is against the layout.
    // Two Options, as in `origin_of`: the outer one refuses, and the inner one is a session that is owed nothing.
    fn split_first(&self) -> Option<(Option<Target>, Targets<'a>)>
        ensures read { MatchOption result ((n : ℕ) → targets_in (suc n) self.now.map self.now.tail.now ≡ None) (λ p. (n : ℕ) → targets_in (suc n) self.now.map self.now.tail.now ≡ add_front p.0 (targets_in n p.1.map p.1.tail.now)) }
        ensures owed { MatchOption result ((n s : ℕ) → slice_index_or (owed (suc n) self.now.map self.now.tail.now) s None ≡ None) (λ p. (n : ℕ) → owed (suc n) self.now.map self.now.tail.now ≡ p.0 ∷ owed n p.1.map p.1.tail.now) }
    {
        let map = self.map / 2;
        if self.map % 2 == 0 {
            return Some((None, Targets { map, ..*self }));
        }
        let (target, tail) = read_target(self.tail)?;
        Some((Some(target), Targets { map, tail }))
    }

    // What follows the targets, or none where one of them is against the layout.
    fn behind(&self) -> Option<&'a [u8]>
        ensures answer { option_map (λ p. p.now) result ≡ rest_of (targets_in sessions self.now.map self.now.tail.now) }
    {
        let mut rest = *self;
        for _ in 0..SESSIONS {
            rest = rest.split_first()?.1;
        }
        Some(rest.tail)
    }
}

// As frame reads two bytes: each is two lines on the library's generic `split_first_chunk`.
fn read_number(bytes: &[u8]) -> Option<(u32, &[u8])>
    ensures answer { with_rest result ≡ number_in bytes.now }
    ensures bound { IfSome result (λ p. p.0 < 2 ^ 32) }
{
    let (number, rest) = bytes.split_first_chunk()?;
    Some((u32::from_be_bytes(*number), rest))
}

fn read_origin(bytes: &[u8]) -> Option<(Option<Origin>, &[u8])>
    ensures answer { with_rest result ≡ origin_in bytes.now }
{
    let (session, rest) = bytes.split_first()?;
    let (identifier, rest) = rest.split_first_chunk()?;
    let origin = origin_of(*session, u16::from_be_bytes(*identifier))?;
    Some((origin, rest))
}

// An origin, or none by its own mark; refuses other sessions and the identifier 0.
// Two Options: the outer one refuses, as all that reads does, and the inner one is an absent origin.
fn origin_of(session: u8, identifier: u16) -> Option<Option<Origin>>
    ensures answer { result ≡ origin_of session identifier }
{
    if session == NO_SESSION && identifier == 0 {
        return Some(None);
    }
    if session < SESSIONS && identifier > 0 {
        return Some(Some(Origin {
            session,
            identifier,
        }));
    }
    None
}

fn read_target(bytes: &[u8]) -> Option<(Target, &[u8])>
    ensures answer { with_rest result ≡ target_in bytes.now }
{
    let (byte, rest) = bytes.split_first()?;
    let target = Target::try_from(*byte).ok()?;
    Some((target, rest))
}

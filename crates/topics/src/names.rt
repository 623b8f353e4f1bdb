// Topic names, topic filters and client identifiers.
ghost use Rattle.std.specs.Prelude.{◌≡◌};
ghost use Rattle.std.specs.Char.{is_ascii_alphanumeric};
ghost use Rattle.topics.specs.Levels.{levels};
ghost use Rattle.topics.specs.Text.{every};
ghost use Rattle.topics.specs.Names.{FirstWildcard, NamesLaw, is_client_id, is_topic_filter, is_topic_name, lawful_from, sized, wildcard};

use crate::text::is_text;

/// The most bytes that a topic name or a topic filter has.
pub const MAX_TOPIC: usize = 64;

/// The most bytes that a client identifier has.
pub const MAX_CLIENT_ID: usize = 23;

/// Whether the bytes are a topic name: 1 to 64 bytes of text with neither + nor #.
#[tactic(auto, using(crate::proofs::Wildcards::first_wildcard), unfolding(crate::specs::Names::is_topic_name))]
pub fn is_topic_name(bytes: &[u8]) -> bool
    ensures answer { result ≡ is_topic_name bytes.now }
{
    is_sized(bytes, MAX_TOPIC) && is_text(bytes) && first_wildcard(bytes).is_none()
}

/// Whether the bytes are a topic filter: 1 to 64 bytes of text, + only as a whole level, # only as the whole last level.
#[tactic(auto, unfolding(crate::specs::Names::is_topic_filter))]
pub fn is_topic_filter(bytes: &[u8]) -> bool
    ensures answer { result ≡ is_topic_filter bytes.now }
{
    is_sized(bytes, MAX_TOPIC) && is_text(bytes) && has_lawful_levels(bytes, true)
}

/// Whether the bytes are a client identifier: 1 to 23 bytes of 0-9, A-Z and a-z.
#[tactic(auto, unfolding(crate::specs::Names::is_client_id))]
pub fn is_client_identifier(bytes: &[u8]) -> bool
    ensures answer { result ≡ is_client_id bytes.now }
{
    is_sized(bytes, MAX_CLIENT_ID) && is_alphanumeric(bytes)
}

/// A client identifier is text, and a topic name is a topic filter.
#[tactic(auto, using(crate::proofs::NameFacts::names_law))]
pub fn names_law()
    ensures law { NamesLaw }
{}

fn is_sized(bytes: &[u8], most: usize) -> bool
    ensures answer { result ≡ sized most bytes.now }
{
    !bytes.is_empty() && bytes.len() <= most
}

fn is_wildcard(b: u8) -> bool
    ensures answer { result ≡ wildcard b }
{
    matches!(b, b'+' | b'#')
}

// The place of the first + or #. A for with an index, not a chain: the rule for topic names asks for that search.
fn first_wildcard(bytes: &[u8]) -> Option<usize>
    ensures answer { FirstWildcard bytes.now result }
{
    for (i, b) in bytes.iter().enumerate() {
        if is_wildcard(*b) {
            return Some(i);
        }
    }
    None
}

// Whether each level from here on is lawful. A level starts here, or one that is no wildcard goes on.
#[tactic(auto, using(crate::proofs::Wildcards::lawful_steps))]
fn has_lawful_levels(filter: &[u8], start: bool) -> bool
    ensures answer { result ≡ lawful_from start (levels filter.now) }
{
    match filter {
        [] => true,
        [b, rest @ ..] if !is_wildcard(*b) => has_lawful_levels(rest, *b == b'/'),
        [_] => start,
        [b'+', b'/', rest @ ..] => start && has_lawful_levels(rest, true),
        _ => false,
    }
}

fn is_alphanumeric(bytes: &[u8]) -> bool
    ensures answer { result ≡ every is_ascii_alphanumeric bytes.now }
{
    bytes.iter().all(u8::is_ascii_alphanumeric)
}

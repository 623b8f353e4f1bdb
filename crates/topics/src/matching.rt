// Matching of topic filters with topics.
ghost use Rattle.std.specs.Prelude.{◌≡◌, ◌≤◌, false, [], length};
ghost use Rattle.topics.specs.Levels.{levels};
ghost use Rattle.topics.specs.Matching.{
  BelowLaw,
  CountLaw,
  Examples,
  HashLaw,
  MatchingLaw,
  PlainLaw,
  level_at,
  past_level,
  takes,
  takes_from,
};

/// Whether the filter takes the topic, level by level: + takes one level, # the rest and also the parent, another level its own bytes.
#[tactic(auto, unfolding(crate::specs::Matching::takes))]
pub fn matches(filter: &[u8], topic: &[u8]) -> bool
    ensures answer { result ≡ takes filter.now topic.now }
{
    takes_from(filter, topic, true)
}

// A level starts here in both, or one goes on that agrees so far. Recursion and slice patterns, as the rule for matching asks.
#[tactic(auto, using(crate::proofs::Steps::steps))]
fn takes_from(filter: &[u8], topic: &[u8], start: bool) -> bool
    ensures answer { result ≡ takes_from start (levels filter.now) (levels topic.now) }
{
    match level_at(filter, start) {
        Level::Hash => true,
        Level::Plus => takes_from(past_level(filter), past_level(topic), false),
        Level::Plain => match (filter, topic) {
            ([f, rest @ ..], [t, more @ ..]) => *f == *t && takes_from(rest, more, *f == b'/'),
            (_, []) => takes_end(filter),
            ([], _) => false,
        },
    }
}

enum Level {
    Plus,
    Hash,
    Plain,
}

// The kind of the level here. A level that goes on is plain.
#[tactic(auto, using(crate::proofs::Steps::kinds))]
fn level_at(filter: &[u8], start: bool) -> Level
    ensures answer { result ≡ level_at start (levels filter.now) }
{
    if !start {
        return Level::Plain;
    }
    match filter {
        [b'#'] => Level::Hash,
        [b'+'] | [b'+', b'/', ..] => Level::Plus,
        _ => Level::Plain,
    }
}

// What is left of the filter takes the end of a topic: nothing, or the # below its last level.
#[tactic(auto, using(crate::proofs::Steps::end_other))]
fn takes_end(filter: &[u8]) -> bool
    ensures answer { result ≡ takes_from false (levels filter.now) (levels []) }
{
    matches!(filter, [] | [b'/', b'#'])
}

// What follows the first level: nothing, or the rest from its slash on.
#[tactic(auto, using(crate::proofs::Steps::past))]
fn past_level(bytes: &[u8]) -> &[u8]
    ensures answer { result.now ≡ past_level bytes.now }
    ensures bound { length result.now ≤ length bytes.now }
{
    match bytes {
        [] | [b'/', ..] => bytes,
        [_, rest @ ..] => past_level(rest),
    }
}

/// A filter takes a topic exactly when each of its levels takes one of the topic's, or all but a last # take the first ones.
#[tactic(auto, using(crate::proofs::Laws::matching_law))]
pub fn matching_law()
    ensures law { MatchingLaw }
{}

/// The filter # takes every topic.
#[tactic(auto, using(crate::proofs::Laws::hash_law))]
pub fn hash_law()
    ensures law { HashLaw }
{}

/// A filter without wildcards takes exactly itself.
#[tactic(auto, using(crate::proofs::Laws::plain_law))]
pub fn plain_law()
    ensures law { PlainLaw }
{}

/// What a filter takes, the same filter with /# takes too, and everything below.
pub fn below_law()
    ensures law { BelowLaw }
{}

/// A filter that does not end in # takes only topics with as many levels.
#[tactic(auto, using(crate::proofs::Laws::count_law))]
pub fn count_law()
    ensures law { CountLaw }
{}

/// The examples by which the rule is taught.
#[tactic(auto, using(crate::proofs::Laws::examples))]
pub fn matching_examples()
    ensures examples { Examples }
{}

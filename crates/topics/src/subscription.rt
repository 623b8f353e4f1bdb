// What subscriptions grant a topic.
ghost use Rattle.std.specs.Prelude.{◌≡◌, map};
ghost use Rattle.topics.specs.Subscription.{GrantedLaw, granted, raised, subscribed};

use crate::matching::matches;
use crate::qos::Qos;

/// A topic filter and the quality of service that it asks for.
#[derive(Clone, Copy, Debug, PartialEq, Eq)]
pub struct Subscription<'a> {
    pub filter: &'a [u8],
    pub qos: Qos,
}

impl Subscription<'_> {
    /// What is granted so far, raised by this subscription where its filter takes the topic.
    #[tactic(auto, unfolding(crate::specs::Subscription::raised))]
    pub fn raise(&self, best: Option<Qos>, topic: &[u8]) -> Option<Qos>
        ensures answer { result ≡ raised best self.now.filter.now self.now.qos topic.now }
    {
        if matches(self.filter, topic) {
            best.max(Some(self.qos))
        } else {
            best
        }
    }
}

/// The highest quality of service among the subscriptions whose filter takes the topic, or none where no filter does.
#[tactic(auto, unfolding(crate::specs::Subscription::granted))]
pub fn granted(subscriptions: &[Subscription], topic: &[u8]) -> Option<Qos>
    ensures answer { result ≡ granted (map subscribed subscriptions.now) topic.now }
{
    subscriptions
        .iter()
        .fold(None, |best, s| s.raise(best, topic))
}

/// What is granted is the highest of what takes the topic.
#[tactic(auto, using(crate::proofs::Grants::granted_law))]
pub fn granted_law()
    ensures law { GrantedLaw }
{}

// The quality of service of a message or a subscription.
ghost use Rattle.std.specs.Prelude.{◌≡◌};
ghost use Rattle.topics.specs.Qos.{Decodes, QosLaw, greater, lesser, qos_number};

/// How often a message may arrive: at most once (0), at least once (1), exactly once (2).
#[derive(Clone, Copy, Debug, PartialEq, Eq, PartialOrd, Ord)]
pub enum Qos {
    AtMostOnce = 0,
    AtLeastOnce = 1,
    ExactlyOnce = 2,
}

/// A number that no quality of service has.
// A type of its own, as each enum has: the crates don't stand on one another, and an error tells what had no such number.
#[derive(Clone, Copy, Debug, PartialEq, Eq)]
pub struct UnknownQos(pub u8);

impl TryFrom<u8> for Qos {
    type Error = UnknownQos;

    ghost try_from_gives = { Decodes };

    // A match from each number to its name: nothing derives it.
    fn try_from(n: u8) -> Result<Qos, UnknownQos> {
        match n {
            0 => Ok(Qos::AtMostOnce),
            1 => Ok(Qos::AtLeastOnce),
            2 => Ok(Qos::ExactlyOnce),
            _ => Err(UnknownQos(n)),
        }
    }
}

impl Qos {
    /// Its number, 0 to 2.
    pub fn number(self) -> u8
        ensures answer { result ≡ qos_number self }
    {
        self as u8
    }

    /// The lesser of the two. Beside Ord's min, as this contract says in the words of the rules which one comes out.
    pub fn lesser(self, other: Qos) -> Qos
        ensures answer { result ≡ lesser self other }
    {
        self.min(other)
    }

    /// The greater of the two. Beside Ord's max, for the same reason.
    pub fn greater(self, other: Qos) -> Qos
        ensures answer { result ≡ greater self other }
    {
        self.max(other)
    }
}

/// Each number up to 2 stands for one quality of service, and lesser and greater go by these numbers.
#[tactic(auto, using(crate::proofs::Qualities::qos_law))]
pub fn qos_law()
    ensures law { QosLaw }
{}

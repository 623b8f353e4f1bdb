// What a call answers.
ghost use Rattle.std.specs.Prelude.{◌≡◌};
ghost use Rattle.broker.specs.Answer.{from_store, refusal_number};

use frame::field::BadField;
use store::kind::{Kind, Refusal as StoreRefusal};

/// Why a call was refused.
#[derive(Clone, Copy, PartialEq, Eq, Debug)]
pub enum Refusal {
    /// The broker is new or down: only restart and power are served.
    Down,
    /// There is no link with this number.
    NoSuchLink,
    /// The link is not in a state for this call.
    WrongState,
    /// The store has too few session numbers or slots.
    TooFewNumbers,
    /// A restart found this row against the layout, naming a missing session, or repeating an earlier row.
    BadRow { kind: Kind, number: u32 },
    /// The packet's first bad field.
    BadPacket(BadField),
    /// A packet of this type is not for the broker, or not now.
    WrongPacket,
    /// A reply is due, and no more replies can wait on the link.
    RepliesFull,
    /// The message needs a row, and a slot, a free row or a rank is lacking.
    NoRoom,
    /// The packet to hand out has this many bytes.
    ShortBuffer { needed: u32 },
    /// The store did not take a write.
    StoreGone,
}

/// Done with a number, or refused.
pub type Answer = Result<u32, Refusal>;

impl Refusal {
    /// Its number.
    // Told variant by variant, since some carry values and no cast gives their numbers.
    pub fn number(self) -> u8
        ensures answer { result ≡ refusal_number self }
    {
        match self {
            Refusal::NoSuchLink => 1,
            Refusal::WrongState => 2,
            Refusal::BadPacket(_) => 3,
            Refusal::WrongPacket => 4,
            Refusal::RepliesFull => 5,
            Refusal::NoRoom => 6,
            Refusal::ShortBuffer { .. } => 8,
            Refusal::StoreGone => 9,
            Refusal::Down => 10,
            Refusal::BadRow { .. } => 11,
            Refusal::TooFewNumbers => 13,
        }
    }
}

/// A write that the store does not take, for whatever reason, is the store gone.
impl From<StoreRefusal> for Refusal {
    ghost from_gives = { λ refusal r. r ≡ from_store refusal };

    fn from(refusal: StoreRefusal) -> Refusal {
        match refusal {
            StoreRefusal::Bad | StoreRefusal::Gone | StoreRefusal::NoRoom => Refusal::StoreGone,
        }
    }
}

// How a store is made: the limits of those made here, the rows that one may be asked for, and why none comes.
ghost use Rattle.std.specs.Prelude.{◌≡◌};
ghost use Rattle.store.specs.Making.{Makes, made_limit};
ghost use Rattle.store.specs.declared.making.MakeError.TheVariants.{NoMemory};

use crate::Store;
use crate::kind::Kind;
use std::alloc::{AllocError, Global};

// Sessions have numbers below 128, messages below 1,024, and a store can be made for a row at each.
pub const SESSIONS: u32 = 128;

pub const MESSAGES: u32 = 1024;

pub const MAX_ROWS: u32 = 1152;

#[derive(Clone, Copy, PartialEq, Eq, Debug)]
pub enum MakeError {
    // More rows were asked for than a store can hold.
    Bad,
    // There is not enough memory.
    NoMemory,
}

impl From<AllocError> for MakeError {
    ghost from_gives = { λ _ e. e ≡ NoMemory };

    fn from(_none: AllocError) -> MakeError {
        MakeError::NoMemory
    }
}

impl Kind {
    // Numbers of this kind lie below this limit in a store made here. A match from each kind to its limit: nothing derives it.
    pub fn made_limit(self) -> u32
        ensures answer { result ≡ made_limit self }
    {
        match self {
            Kind::Session => SESSIONS,
            Kind::Message => MESSAGES,
        }
    }
}

// A store that is made here for a number of rows: all of its memory is got then.
pub trait Made: Store {
    // An empty store in which up to so many rows can stand, with no write left; more than 1,152 rows are bad.
    fn new(heap: Global, rows: u32) -> Result<Self, MakeError>
        ensures answer { Makes Self.Store.disk rows result };
}

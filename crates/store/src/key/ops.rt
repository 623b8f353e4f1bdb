// What is done with keys.
ghost use Rattle.std.specs.Prelude.{◌≡◌, ◌<◌};
ghost use Rattle.store.specs.Key.{Keys, IsFirst, slot};

use crate::key::Key;
use crate::kind::{Kind, Refusal};
use crate::making::SESSIONS;

impl Key {
    // The key; a number at or above its kind's limit is bad.
    pub fn of(kind: Kind, number: u32) -> Result<Key, Refusal>
        ensures answer { Keys kind number result }
    {
        if number >= kind.made_limit() {
            return Err(Refusal::Bad);
        }
        Ok(Key { kind, number })
    }

    // The first of all keys.
    pub fn first() -> Key
        ensures answer { IsFirst result }
    {
        Key {
            kind: Kind::Session,
            number: 0,
        }
    }

    // Its place among all keys: sessions first, then messages.
    pub fn slot(self) -> usize
        ensures answer { result ≡ slot self.kind self.number }
        ensures bound { result < 1152 }
    {
        match self.kind {
            Kind::Session => self.number as usize,
            Kind::Message => (SESSIONS + self.number) as usize,
        }
    }
}

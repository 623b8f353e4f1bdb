// The kinds of rows, and what a store answers when it refuses.
ghost use Rattle.std.specs.Prelude.{◌≡◌};
ghost use Rattle.store.specs.Kind.{Decodes, kind_number};

#[derive(Clone, Copy, PartialEq, Eq, Debug)]
pub enum Kind {
    Session = 0,
    Message = 1,
}

// A number that no kind has.
// A type of its own, as each enum has: the crates don't stand on one another, and an error tells what had no such number.
#[derive(Clone, Copy, PartialEq, Eq, Debug)]
pub struct UnknownKind(pub u8);

impl TryFrom<u8> for Kind {
    type Error = UnknownKind;

    ghost try_from_gives = { Decodes };

    // A match from each number to its name: nothing derives it.
    fn try_from(number: u8) -> Result<Kind, UnknownKind> {
        match number {
            0 => Ok(Kind::Session),
            1 => Ok(Kind::Message),
            _ => Err(UnknownKind(number)),
        }
    }
}

impl Kind {
    // 0 for sessions, 1 for messages.
    pub fn number(self) -> u8
        ensures answer { result ≡ kind_number self }
    {
        self as u8
    }
}

#[derive(Clone, Copy, PartialEq, Eq, Debug)]
pub enum Refusal {
    // The key lies outside the limits, the row is too short or too long, or the buffer too short.
    Bad,
    // No write is left: power has failed.
    Gone,
    // The row is absent and no row is free.
    NoRoom,
}

// What is left of a packet while it is read, and the steps that several packets share.
ghost use Rattle.std.specs.Prelude.{◌≡◌, ◌+◌, ◌^◌, ◌<◌, ◌≤◌, length, MatchOption, IfOk, OnOk, Some, None, MatchResult};
ghost use Rattle.topics.specs.Qos.{qos_of};
ghost use Rattle.frame.specs.Number.{number_in};
ghost use Rattle.packets.specs.Fields.{Finds, Takes, bad_at, byte_in, lent, cut, ended, identifier_in, length_prefixed, only_identifier, past};

use crate::packet::ReadError;
use frame::field::{BadField, Field};
use frame::number::read_number;
use topics::qos::Qos;

// The bytes not yet read, and the place of the first of them.
#[derive(Clone, Copy)]
pub(crate) struct Cursor<'a> {
    pub(crate) bytes: &'a [u8],
    pub(crate) at: usize,
    ghost fits: { at + length bytes.now < 2 ^ 64 },
}

// A bad field.
pub(crate) fn bad(field: Field, place: usize) -> ReadError
    ensures answer { result ≡ bad_at field place }
{
    ReadError::Bad(BadField { field, place })
}

// The quality of service with a number, or the field at this place is bad.
pub(crate) fn read_qos(number: u8, field: Field, place: usize) -> Result<Qos, ReadError>
    ensures answer { MatchResult result (λ qos. qos_of number ≡ Some qos) (λ e. (qos_of number ≡ None) × (e ≡ bad_at field place)) }
{
    Qos::try_from(number).map_err(|_| bad(field, place))
}

impl<'a> Cursor<'a> {
    // Bytes and their place, or none where they would end beyond the last index.
    pub(crate) fn new(bytes: &'a [u8], at: usize) -> Option<Cursor<'a>>
        ensures answer { MatchOption result (2 ^ 64 ≤ at + length bytes.now) (λ c. (c.bytes.now ≡ bytes.now) × (c.at ≡ at)) }
    {
        at.checked_add(bytes.len())?;
        Some(Cursor { bytes, at })
    }

    // Bytes are missing: told at the packet's length.
    pub(crate) fn missing(&self) -> ReadError
        ensures answer { result ≡ bad_at Field.End (self.now.at + length self.now.bytes.now) }
    {
        bad(Field::End, self.at + self.bytes.len())
    }

    // Passes if nothing is left over.
    pub(crate) fn end(&self) -> Result<(), ReadError>
        ensures answer { result ≡ ended self.now.bytes.now self.now.at tt }
    {
        if self.bytes.is_empty() {
            Ok(())
        } else {
            Err(bad(Field::End, self.at))
        }
    }

    // Takes the next byte. Apart from `number` and `take`: a step for all three would have to be told how far to go on.
    // Each call says how far the place goes on: an invariant speaks of one moment only.
    pub(crate) fn byte(&mut self) -> Result<u8, ReadError>
        ensures answer { Takes (byte_in self.old.bytes.now) self.old.bytes.now self.old.at self.new.bytes.now result }
        ensures place { OnOk result (self.new.at ≡ self.old.at + 1) }
    {
        let (byte, rest) = self.bytes.split_first().ok_or(self.missing())?;
        *self = Cursor {
            bytes: rest,
            at: self.at + 1,
        };
        Ok(*byte)
    }

    // Takes a two-byte number.
    pub(crate) fn number(&mut self) -> Result<u16, ReadError>
        ensures answer { Takes (number_in self.old.bytes.now) self.old.bytes.now self.old.at self.new.bytes.now result }
        ensures place { OnOk result (self.new.at ≡ self.old.at + 2) }
    {
        let (number, rest) = read_number(self.bytes).ok_or(self.missing())?;
        *self = Cursor {
            bytes: rest,
            at: self.at + 2,
        };
        Ok(number)
    }

    // Takes so many bytes.
    pub(crate) fn take(&mut self, count: usize) -> Result<&'a [u8], ReadError>
        ensures answer { Takes (cut count self.old.bytes.now) self.old.bytes.now self.old.at self.new.bytes.now (lent result) }
        ensures place { OnOk result (self.new.at ≡ self.old.at + count) }
    {
        let (taken, rest) = self.bytes.split_at_checked(count).ok_or(self.missing())?;
        *self = Cursor {
            bytes: rest,
            at: self.at + count,
        };
        Ok(taken)
    }

    // Takes the bytes that a two-byte length announces.
    pub(crate) fn text(&mut self) -> Result<&'a [u8], ReadError>
        ensures answer { Takes (length_prefixed self.old.bytes.now) self.old.bytes.now self.old.at self.new.bytes.now (lent result) }
        ensures place { IfOk result (λ text. self.new.at ≡ past text.now self.old.at) }
    {
        let count = self.number()?;
        self.take(usize::from(count))
    }

    // Takes a packet identifier.
    pub(crate) fn identifier(&mut self) -> Result<u16, ReadError>
        ensures answer { Finds (identifier_in self.old.bytes.now self.old.at) self.new.bytes.now result }
        ensures place { OnOk result (self.new.at ≡ self.old.at + 2) }
    {
        let place = self.at;
        let id = self.number()?;
        if id == 0 {
            return Err(bad(Field::PacketIdentifier, place));
        }
        Ok(id)
    }

    // A packet identifier that nothing follows.
    pub(crate) fn only_identifier(&mut self) -> Result<u16, ReadError>
        ensures answer { result ≡ only_identifier self.old.bytes.now self.old.at }
    {
        let id = self.identifier()?;
        self.end()?;
        Ok(id)
    }
}

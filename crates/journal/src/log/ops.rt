// What is done to a log. Only its making allocates.
ghost use Rattle.std.specs.Prelude.{◌≡◌, ◌<◌, ◌≤◌, [], ◌++◌, length, drop, IfOk, if◌then◌else◌, Ok, ◌==◌, nat_lt};
ghost use Rattle.journal.specs.Changes.{live, replay, appended};
ghost use Rattle.journal.specs.Entry.{change_of};
ghost use Rattle.journal.specs.Log.{logged, places_of};

use crate::log::Log;
use crate::places::Places;
use std::alloc::{AllocError, Global};
use store::key::Key;
use store::kind::Refusal;

impl Log {
    // A log without changes that has this many places.
    pub(crate) fn new(heap: Global, places: usize) -> Result<Log, AllocError>
        ensures { IfOk result (λ l. (logged l ≡ []) × (places_of l ≡ places)) }
    {
        let places = Places::new(heap, places)?;
        Ok(Log { places, taken: 0 })
    }

    // No row stands at the key.
    pub(crate) fn lacks(&self, key: Key) -> bool
        ensures { result ≡ (length (replay (logged self.now) key.kind key.number) == 0) }
    {
        self.places.index.find(key).is_none()
    }

    // Copies the key's row to the buffer's start, and answers its length.
    pub(crate) fn read(&self, key: Key, buffer: &mut [u8]) -> Result<usize, Refusal>
        requires { 560 ≤ length buffer.old }
        ensures answer { result ≡ Ok (length (replay (logged self.now) key.kind key.number)) }
        ensures buffer { buffer.new ≡ replay (logged self.now) key.kind key.number ++ drop (length (replay (logged self.now) key.kind key.number)) buffer.old }
    {
        match self.places.index.find(key) {
            Some(place) => self.places.entries[place].row.read(buffer),
            None => Ok(0),
        }
    }

    // Where all places are taken, clears dead changes.
    fn make_room(&mut self)
        requires { length (live (logged self.old)) < places_of self.old }
        ensures after { logged self.new ≡ (if nat_lt (length (logged self.old)) (places_of self.old) then logged self.old else live (logged self.old)) }
        ensures room { self.new.taken < places_of self.new }
        ensures places { places_of self.new ≡ places_of self.old }
    {
        if self.taken == self.places.entries.len() {
            self.taken = self.places.clear_dead();
        }
    }

    // Appends the change; where all places are taken, clears dead changes first.
    #[inline(always)]
    pub(crate) fn append(&mut self, key: Key, row: &[u8])
        requires short { length row.now ≤ 560 }
        requires room { length (live (logged self.old)) < places_of self.old }
        ensures after { logged self.new ≡ appended (places_of self.old) (logged self.old) (change_of key row.now) }
        ensures places { places_of self.new ≡ places_of self.old }
    {
        self.make_room();
        self.places.write(self.taken, key, row);
        self.taken += 1;
    }

    // How many changes it keeps.
    pub(crate) fn taken(&self) -> usize
        ensures answer { result ≡ length (logged self.now) }
        ensures within { result ≤ places_of self.now }
    {
        self.taken
    }

    // How many changes it has places for.
    pub(crate) fn places(&self) -> usize
        ensures { result ≡ places_of self.now }
    {
        self.places.entries.len()
    }
}

// A journal as a store. Only its making allocates.
ghost use Rattle.std.specs.Prelude.{◌≡◌, ◌+◌, ◌*◌, ◌≤◌, [], length, IfOk};
ghost use Rattle.store.specs.Disk.{put_answer, put_after, drop_answer, drop_after, powered};
ghost use Rattle.journal.specs.Changes.{standing};
ghost use Rattle.journal.specs.Disk.{changes, places, journal_disk, outside, put_changes, drop_changes};
ghost use Rattle.store.specs.Making.{Makes};
ghost use Rattle.journal.specs.Sound.{journal_sound};

use crate::Journal;
use crate::log::Log;
use std::alloc::Global;
use store::budget::Budget;
use store::key::Key;
use store::kind::{Kind, Refusal};
use store::making::{Made, MakeError};
use store::row::ops::check_row;
use store::{ROW_BYTES, Store};

impl Journal {
    // How many changes it keeps.
    pub fn change_count(&self) -> usize
        ensures answer { result ≡ length (changes self.now) }
        ensures within { result ≤ places self.now }
    {
        self.log.taken()
    }

    // How many changes it has places for: two for each row, standing or free, and one more.
    pub fn places(&self) -> usize
        ensures answer { result ≡ places self.now }
        ensures rows { result ≡ 2 * (self.now.budget.free + standing (journal_disk self.now).rows) + 1 }
    {
        self.log.places()
    }
}

// The clauses `changes` and `places` stand at each call that alters, since callers are promised them.
impl Store for Journal {
    ghost disk = { journal_disk };

    ghost Frame = { Unit {0} };

    ghost rest = { outside };

    ghost sound = { journal_sound };

    fn load(&self, kind: Kind, number: u32, buffer: &mut [u8]) -> Result<usize, Refusal> {
        let key = Key::of(kind, number)?;
        if buffer.len() < ROW_BYTES {
            return Err(Refusal::Bad);
        }
        self.log.read(key, buffer)
    }

    fn put(&mut self, kind: Kind, number: u32, row: &[u8]) -> Result<(), Refusal>
        ensures answer { result ≡ put_answer (journal_disk self.old) kind number row.now }
        ensures after { journal_disk self.new ≡ put_after result (journal_disk self.old) kind number row.now }
        ensures rest { outside self.new ≡ outside self.old }
        ensures changes { changes self.new ≡ put_changes result self.old kind number row.now }
        ensures places { places self.new ≡ places self.old }
    {
        let key = Key::of(kind, number)?;
        check_row(row)?;
        self.budget.take(self.log.lacks(key))?;
        self.log.append(key, row);
        Ok(())
    }

    fn drop_row(&mut self, kind: Kind, number: u32) -> Result<(), Refusal>
        ensures answer { result ≡ drop_answer (journal_disk self.old) kind number }
        ensures after { journal_disk self.new ≡ drop_after result (journal_disk self.old) kind number }
        ensures rest { outside self.new ≡ outside self.old }
        ensures changes { changes self.new ≡ drop_changes result self.old kind number }
        ensures places { places self.new ≡ places self.old }
    {
        let key = Key::of(kind, number)?;
        if self.log.lacks(key) {
            return Ok(());
        }
        self.budget.spend()?;
        self.budget.free += 1;
        self.log.append(key, b"");
        Ok(())
    }

    fn limit(&self, kind: Kind) -> u32 {
        kind.made_limit()
    }

    fn free(&self) -> u32 {
        self.budget.free
    }

    fn power(&mut self, writes: u32)
        ensures after { journal_disk self.new ≡ powered (journal_disk self.old) writes }
        ensures rest { outside self.new ≡ outside self.old }
        ensures changes { changes self.new ≡ changes self.old }
        ensures places { places self.new ≡ places self.old }
    {
        self.budget.writes = writes;
    }
}

impl Made for Journal {
    fn new(heap: Global, rows: u32) -> Result<Journal, MakeError>
        ensures answer { Makes journal_disk rows result }
        ensures changes { IfOk result (λ j. (changes j ≡ []) × (places j ≡ 2 * rows + 1)) }
    {
        let budget = Budget::new(rows)?;
        let log = Log::new(heap, 2 * rows as usize + 1)?;
        Ok(Journal { log, budget })
    }
}

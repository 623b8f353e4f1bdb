// A table as a store.
ghost use Rattle.store.specs.Making.{Makes};
ghost use Rattle.table.specs.Disk.{table_disk};
ghost use Rattle.table.specs.Sound.{table_sound};

use crate::Table;
use crate::rows::Rows;
use std::alloc::Global;
use store::Store;
use store::budget::Budget;
use store::key::Key;
use store::kind::{Kind, Refusal};
use store::making::{Made, MakeError};
use store::row::ops::check_row;

// The calls are not one generic code with the journal's: that tells its changes too, so each store would forward them all.
impl Store for Table {
    ghost disk = { table_disk };

    ghost Frame = { Unit {0} };

    ghost rest = { λ _. tt };

    ghost sound = { table_sound };

    fn load(&self, kind: Kind, number: u32, buffer: &mut [u8]) -> Result<usize, Refusal> {
        let key = Key::of(kind, number)?;
        self.rows.get(key).read(buffer)
    }

    fn put(&mut self, kind: Kind, number: u32, row: &[u8]) -> Result<(), Refusal> {
        let key = Key::of(kind, number)?;
        check_row(row)?;
        self.budget.take(self.rows.get(key).is_empty())?;
        self.rows.write(key, row)
    }

    fn drop_row(&mut self, kind: Kind, number: u32) -> Result<(), Refusal> {
        let key = Key::of(kind, number)?;
        if self.rows.get(key).is_empty() {
            return Ok(());
        }
        self.budget.spend()?;
        self.budget.free += 1;
        self.rows.clear(key);
        Ok(())
    }

    fn limit(&self, kind: Kind) -> u32 {
        kind.made_limit()
    }

    fn free(&self) -> u32 {
        self.budget.free
    }

    fn power(&mut self, writes: u32) {
        self.budget.writes = writes;
    }
}

impl Made for Table {
    fn new(heap: Global, rows: u32) -> Result<Table, MakeError>
        ensures answer { Makes table_disk rows result }
    {
        let budget = Budget::new(rows)?;
        let rows = Rows::new(heap)?;
        Ok(Table { rows, budget })
    }
}

// What is done to the rows. Only their making allocates.
ghost use Rattle.std.specs.Prelude.{◌≡◌, [], replicate, is_ok, IfOk, if◌then◌else◌, slice_set};
ghost use Rattle.store.specs.Key.{slot};
ghost use Rattle.store.specs.Row.{held, write_answer};
ghost use Rattle.table.specs.Rows.{contents, row_at};

use crate::rows::Rows;
use std::alloc::{AllocError, Global};
use store::key::Key;
use store::kind::Refusal;
use store::making::MAX_ROWS;
use store::row::RowBuffer;

impl Rows {
    // Memory in which no row stands yet.
    pub(crate) fn new(heap: Global) -> Result<Rows, AllocError>
        ensures answer { IfOk result (λ rows. contents rows ≡ replicate 1152 []) }
    {
        let mut places = Vec::with_capacity(heap, MAX_ROWS as usize)?;
        places.try_resize_with(MAX_ROWS as usize, || RowBuffer::new(heap))?;
        Ok(Rows { places })
    }

    pub(crate) fn get(&self, key: Key) -> &RowBuffer
        ensures answer { held result.now ≡ row_at (contents self.now) key }
    {
        &self.places[key.slot()]
    }

    // Takes the row in place of what stood at the key; more than 560 bytes are bad and alter nothing.
    pub(crate) fn write(&mut self, key: Key, row: &[u8]) -> Result<(), Refusal>
        ensures answer { result ≡ write_answer row.now }
        ensures after { contents self.new ≡ (if is_ok result then slice_set (contents self.old) (slot key.kind key.number) row.now else contents self.old) }
    {
        self.places[key.slot()].write(row)
    }

    pub(crate) fn clear(&mut self, key: Key)
        ensures after { contents self.new ≡ slice_set (contents self.old) (slot key.kind key.number) [] }
    {
        self.places[key.slot()].clear();
    }
}

// One change in memory.
use std::alloc::{AllocError, Global};
use store::key::Key;
use store::row::RowBuffer;

// A change: the row that its key gets; no bytes drop the row.
#[derive(Drop)]
pub(crate) struct Entry {
    pub(crate) key: Key,
    pub(crate) row: RowBuffer,
}

impl Entry {
    // A place with memory for any row.
    pub(crate) fn new(heap: Global) -> Result<Entry, AllocError> {
        let row = RowBuffer::new(heap)?;
        Ok(Entry {
            key: Key::first(),
            row,
        })
    }
}

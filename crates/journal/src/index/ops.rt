// What is done to an index. Only its making allocates.
ghost use Rattle.std.specs.Prelude.{◌≡◌, ℕ, IfOk, None, slice_index_or, slice_set};
ghost use Rattle.store.specs.Key.{slot};
ghost use Rattle.journal.specs.Index.{pointers};

use crate::index::Index;
use std::alloc::{AllocError, Global};
use store::key::Key;
use store::making::MAX_ROWS;

impl Index {
    // An index that knows of no change.
    pub(crate) fn new(heap: Global) -> Result<Index, AllocError>
        ensures { IfOk result (λ x. (i : ℕ) → slice_index_or (pointers x) i None ≡ None) }
    {
        let slots = Vec::from_elem(heap, None, MAX_ROWS as usize)?;
        Ok(Index { slots })
    }

    // What it has of this key.
    pub(crate) fn find(&self, key: Key) -> Option<usize>
        ensures { result ≡ slice_index_or (pointers self.now) (slot key.kind key.number) None }
    {
        self.slots[key.slot()]
    }

    // From now on it has of this key what was found.
    pub(crate) fn note(&mut self, key: Key, found: Option<usize>)
        ensures { pointers self.new ≡ slice_set (pointers self.old) (slot key.kind key.number) found }
    {
        self.slots[key.slot()] = found;
    }
}

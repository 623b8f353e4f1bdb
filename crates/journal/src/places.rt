// Places for changes, and where among them the latest change of each key stands.
ghost use Rattle.std.specs.Prelude.{◌≡◌, ℕ, ◌+◌, ◌<◌, ◌≤◌, List, length, IfOk, Some, None, if◌then◌else◌, vec_len, nat_lt, slice_index_or, slice_set};
ghost use Rattle.store.specs.Key.{slot};
ghost use Rattle.journal.specs.Changes.{Change, live};
ghost use Rattle.journal.specs.Entry.{change_of, written, kept};
ghost use Rattle.journal.specs.Index.{pointers, Knows, Clearing};

use crate::entry::Entry;
use crate::index::Index;
use std::alloc::{AllocError, Global};
use store::key::Key;

#[derive(Drop)]
pub(crate) struct Places {
    pub(crate) entries: Vec<Entry>,
    pub(crate) index: Index,
}

impl Places {
    // As many places, each with memory for any row, and an index that knows of no change.
    pub(crate) fn new(heap: Global, count: usize) -> Result<Places, AllocError>
        ensures places { IfOk result (λ p. vec_len p.entries ≡ count) }
        ensures none { IfOk result (λ p. (i : ℕ) → slice_index_or (pointers p.index) i None ≡ None) }
    {
        let mut entries = Vec::with_capacity(heap, count)?;
        entries.try_resize_with(count, || Entry::new(heap))?;
        let index = Index::new(heap)?;
        Ok(Places { entries, index })
    }

    // Puts the change into this place and tells the index: a drop leaves nothing to find. This call and the next two each say that as
    // many places stand as before: an invariant speaks of one moment only.
    pub(crate) fn write(&mut self, at: usize, key: Key, row: &[u8])
        requires place { at < vec_len self.old.entries }
        requires short { length row.now ≤ 560 }
        ensures places { vec_len self.new.entries ≡ vec_len self.old.entries }
        ensures after { written self.new.entries ≡ slice_set (written self.old.entries) at (change_of key row.now) }
        ensures found { pointers self.new.index ≡ slice_set (pointers self.old.index) (slot key.kind key.number) (if nat_lt 0 (length row.now) then Some at else None) }
    {
        let entry = &mut self.entries[at];
        entry.key = key;
        entry.row.write(row).unwrap();
        self.index.note(key, (!row.is_empty()).then_some(at));
    }

    // Moves the change in `from` down to `to` if it is live, and answers the place for the next one.
    fn settle(&mut self, to: usize, from: usize) -> usize
        requires order { to ≤ from }
        requires place { from < vec_len self.old.entries }
        ensures places { vec_len self.new.entries ≡ vec_len self.old.entries }
        ensures turn { (xs : List Change) → Clearing xs (written self.old.entries) (pointers self.old.index) to from → Clearing xs (written self.new.entries) (pointers self.new.index) result (from + 1) }
    {
        let key = self.entries[from].key;
        if self.index.find(key) != Some(from) {
            return to;
        }
        self.entries.swap(to, from);
        self.index.note(key, Some(to));
        to + 1
    }

    // Moves the live changes to the front in their order, and answers how many there are.
    pub(crate) fn clear_dead(&mut self) -> usize
        requires { Knows (pointers self.old.index) (written self.old.entries) }
        ensures places { vec_len self.new.entries ≡ vec_len self.old.entries }
        ensures within { result ≤ vec_len self.new.entries }
        ensures after { kept self.new.entries result ≡ live (written self.old.entries) }
        ensures knows { Knows (pointers self.new.index) (kept self.new.entries result) }
    {
        let mut to = 0;
        // Counted: a live change is swapped with the one in a place before it, which `retain` would free.
        for from in 0..self.entries.len() {
            to = self.settle(to, from);
        }
        to
    }
}

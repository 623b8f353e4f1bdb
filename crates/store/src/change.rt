// Puts and drops in a row, on any store.
ghost use Rattle.std.specs.Prelude.{◌≡◌, IfOk};
ghost use Rattle.store.specs.Change.{outcome, outcomes, after, DoneWhenPossible, apply_after};

use crate::Store;
use crate::kind::{Kind, Refusal};
use std::alloc::{AllocError, Global};

// One write of a row, or its removal.
#[derive(Drop)]
pub enum Change {
    Put {
        kind: Kind,
        number: u32,
        row: Vec<u8>,
    },
    Remove {
        kind: Kind,
        number: u32,
    },
}

// Done, or why not.
pub type Outcome = Result<(), Refusal>;

impl Change {
    // Makes this one change.
    pub fn make<S: Store>(&self, store: &mut S) -> Outcome
        ensures answer { result ≡ outcome (S.Store.disk store.old) self.now }
        ensures after { S.Store.disk store.new ≡ after result (S.Store.disk store.old) self.now }
        ensures rest { S.Store.rest store.new ≡ S.Store.rest store.old }
    {
        match self {
            Change::Put { kind, number, row } => store.put(*kind, *number, row.as_slice()),
            Change::Remove { kind, number } => store.drop_row(*kind, *number),
        }
    }
}

// Makes the changes in order, refused ones too, and answers one outcome each.
// Want of memory for the outcomes comes before the first change.
pub fn apply<S: Store>(
    heap: Global,
    store: &mut S,
    changes: &[Change],
) -> Result<Vec<Outcome>, AllocError>
    ensures answer { IfOk result (λ v. v.items ≡ outcomes (S.Store.disk store.old) changes.now) }
    ensures done { IfOk result (λ v. DoneWhenPossible (S.Store.disk store.old) changes.now v.items) }
    ensures after { S.Store.disk store.new ≡ apply_after result (S.Store.disk store.old) changes.now }
    ensures rest { S.Store.rest store.new ≡ S.Store.rest store.old }
{
    let mut outcomes = Vec::with_capacity(heap, changes.len())?;
    for change in changes {
        outcomes.push_reserved(change.make(store));
    }
    Ok(outcomes)
}

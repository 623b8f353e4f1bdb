// Changes in memory that was got when it was made.
ghost use Rattle.std.specs.Prelude.{◌≤◌, vec_len};
ghost use Rattle.journal.specs.Entry.{kept};
ghost use Rattle.journal.specs.Index.{pointers, Knows};

use crate::places::Places;

pub mod ops;

// The places that are taken come first; the index has where the latest change of each key stands.
// A count beside the places: those past it keep their memory, since no call allocates.
#[derive(Drop)]
pub(crate) struct Log {
    places: Places,
    taken: usize,
    ghost within: { taken ≤ vec_len places.entries },
    ghost knows: { Knows (pointers places.index) (kept places.entries taken) },
}

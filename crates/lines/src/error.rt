// Why a word of a line was not read.
ghost use Rattle.std.specs.Prelude.{◌≡◌};
ghost use Rattle.lines.specs.declared.error.LineError.TheVariants.{Memory};

use std::alloc::{AllocError, AllocFailed};

#[derive(Clone, Copy, PartialEq, Eq, Debug)]
pub enum LineError {
    // The word is not of the form that is asked for.
    Malformed,
    // There is no memory for what it says.
    Memory,
}

impl From<AllocError> for LineError {
    ghost from_gives = { λ _ r. r ≡ Memory };

    fn from(_error: AllocError) -> LineError {
        LineError::Memory
    }
}

// Beside the one above, for a caller that pushes: a `?` converts once, and the error of a push is no `AllocError` yet.
impl<T: Drop> From<AllocFailed<T>> for LineError {
    ghost from_gives = { λ _ r. r ≡ Memory };

    fn from(_error: AllocFailed<T>) -> LineError {
        LineError::Memory
    }
}

// Changes made through a window of a store.
ghost use Rattle.std.specs.Prelude.{◌≡◌};
ghost use Rattle.window.specs.declared.span.Spans.{Spans as AnySpans};
ghost use Rattle.window.specs.declared.through.ThroughError.TheVariants.{NoMemory};
ghost use Rattle.window.specs.Span.{Apart};
ghost use Rattle.window.specs.View.{view, around, Beside};
ghost use Rattle.window.specs.Through.{Answers, through_after};

use crate::Window;
use crate::span::Spans;
use std::alloc::{AllocError, Global};
use store::Store;
use store::change::{Change, Outcome, apply};

// Why no change was made.
#[derive(Clone, Copy, PartialEq, Eq, Debug)]
pub enum ThroughError {
    // The window does not lie within the limits of the store.
    Beyond,
    // There is not enough memory for the outcomes.
    NoMemory,
}

impl From<AllocError> for ThroughError {
    ghost from_gives = { λ _ e. e ≡ NoMemory };

    fn from(_none: AllocError) -> ThroughError {
        ThroughError::NoMemory
    }
}

// Makes the changes, in order, through a window of the store, and answers one outcome each.
// A window that does not overlap this one shows the rows and limits that it showed before.
pub fn apply_through<S: Store>(
    heap: Global,
    store: &mut S,
    spans: Spans,
    changes: &[Change],
) -> Result<Vec<Outcome>, ThroughError>
    ensures answer { Answers (S.Store.disk store.old) spans changes.now result }
    ensures after { view (S.Store.disk store.new) spans ≡ through_after result (view (S.Store.disk store.old) spans) changes.now }
    ensures beside { (other : AnySpans) → Apart spans other → Beside (S.Store.disk store.old) (S.Store.disk store.new) other }
    ensures rest { around (S.Store.disk store.new) (S.Store.rest store.new) spans ≡ around (S.Store.disk store.old) (S.Store.rest store.old) spans }
{
    // No `?`: nothing is known of a lent store that goes into an error by it.
    let Ok(mut window) = Window::new(store, spans) else {
        return Err(ThroughError::Beyond);
    };
    Ok(apply(heap, &mut window, changes)?)
}

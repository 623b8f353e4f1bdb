// A pile as a store, and windows stacked on it.
ghost use Rattle.std.specs.Prelude.{◌≡◌, IfOk};
ghost use Rattle.store.specs.Making.{Makes};
ghost use Rattle.pile.specs.Pile.{Frames, pile_disk, pile_rest, pile_sound, BareWith, Stacks};
ghost use Rattle.pile.specs.declared.Pile.TheVariants.{Bare, One, Two};
ghost use Rattle.pile.specs.declared.ops.StackRefusal.TheVariants.{Beyond as OutOfReach};

use crate::Pile;
use crate::base::{Base, Basis};
use std::alloc::Global;
use store::Store;
use store::kind::{Kind, Refusal};
use store::making::MakeError;
use window::span::Spans;
use window::{Beyond, Window};

#[derive(Clone, Copy, PartialEq, Eq, Debug)]
pub enum StackRefusal {
    // Refusal 13: the window does not lie within the limits of the pile.
    Beyond,
    // Three windows stand already.
    Full,
}

// No window was stacked: why not, and the pile as it was.
#[derive(Drop)]
pub struct Unstacked {
    pub pile: Pile,
    pub why: StackRefusal,
}

impl Pile {
    // An empty store of this type for so many rows, with no write left; more than 1,152 are bad.
    pub fn new<S: Basis>(heap: Global, rows: u32) -> Result<Pile, MakeError>
        ensures answer { Makes pile_disk rows result }
        ensures base { IfOk result (BareWith S.Is) }
    {
        Ok(Pile::Bare(Base::new::<S>(heap, rows)?))
    }

    // The pile with one window more; a fourth is refused, and so is one that does not lie within the limits.
    pub fn window(self, spans: Spans) -> Result<Pile, Unstacked>
        ensures answer { Stacks self spans result }
    {
        match self {
            Pile::Bare(base) => Ok(Pile::One(Window::new(base, spans)?)),
            Pile::One(below) => Ok(Pile::Two(Window::new(below, spans)?)),
            Pile::Two(below) => Ok(Pile::Three(Window::new(below, spans)?)),
            Pile::Three(below) => Err(Unstacked {
                pile: Pile::Three(below),
                why: StackRefusal::Full,
            }),
        }
    }
}

impl From<Base> for Pile {
    ghost from_gives = { λ base pile. pile ≡ Bare base };

    fn from(base: Base) -> Pile {
        Pile::Bare(base)
    }
}

impl From<Window<Base>> for Pile {
    ghost from_gives = { λ window pile. pile ≡ One window };

    fn from(window: Window<Base>) -> Pile {
        Pile::One(window)
    }
}

impl From<Window<Window<Base>>> for Pile {
    ghost from_gives = { λ window pile. pile ≡ Two window };

    fn from(window: Window<Window<Base>>) -> Pile {
        Pile::Two(window)
    }
}

// A window beyond the limits is not stacked on the store, which is the pile again.
impl<S: Into<Pile>> From<Beyond<S>> for Unstacked {
    ghost from_gives = { λ beyond e. S.converts beyond.store e.pile × (e.why ≡ OutOfReach) };

    fn from(beyond: Beyond<S>) -> Unstacked {
        Unstacked {
            pile: beyond.store.into(),
            why: StackRefusal::Beyond,
        }
    }
}

// A call on the top of a pile, arm by arm: a function may not make a `&dyn Store` and hand it out.
macro_rules! on_top {
    ($pile:expr, $store:ident => $call:expr) => {
        match $pile {
            Pile::Bare($store) => $call,
            Pile::One($store) => $call,
            Pile::Two($store) => $call,
            Pile::Three($store) => $call,
        }
    };
}

impl Store for Pile {
    ghost disk = { pile_disk };

    ghost Frame = { Frames };

    ghost rest = { pile_rest };

    ghost sound = { pile_sound };

    fn load(&self, kind: Kind, number: u32, buffer: &mut [u8]) -> Result<usize, Refusal> {
        on_top!(self, store => store.load(kind, number, buffer))
    }

    fn put(&mut self, kind: Kind, number: u32, row: &[u8]) -> Result<(), Refusal> {
        on_top!(self, store => store.put(kind, number, row))
    }

    fn drop_row(&mut self, kind: Kind, number: u32) -> Result<(), Refusal> {
        on_top!(self, store => store.drop_row(kind, number))
    }

    fn limit(&self, kind: Kind) -> u32 {
        on_top!(self, store => store.limit(kind))
    }

    fn free(&self) -> u32 {
        on_top!(self, store => store.free())
    }

    fn power(&mut self, writes: u32) {
        on_top!(self, store => store.power(writes))
    }
}

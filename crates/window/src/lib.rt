// A window on a store: a run of the numbers of each kind, as a store of its own. Windows stand on windows.
#![tactic(auto)]

ghost use Rattle.std.specs.Prelude.{◌≡◌, ◌+◌, ◌<◌, ◌≤◌, IfOk, MatchResult};
ghost use Rattle.store.specs.declared.kind.Kind.{Kind as AnyKind};
ghost use Rattle.store.specs.declared.kind.Refusal.TheVariants.{Bad};
ghost use Rattle.window.specs.Span.{base_of, width_of, Within};
ghost use Rattle.window.specs.Sound.{view_sound};
ghost use Rattle.window.specs.View.{view, Around, around};
ghost use Rattle.window.specs.Beyond.{refusal_number};

pub mod span;
pub mod through;

use span::Spans;
use store::Store;
use store::kind::{Kind, Refusal};

// The numbers of a store that lie in the spans, counted from 0.
#[derive(Drop)]
pub struct Window<S> {
    below: S,
    spans: Spans,
}

// Refusal 13: the spans do not lie within the limits of the store, which comes back as it was.
#[derive(Drop)]
pub struct Beyond<S> {
    pub store: S,
}

impl<S> Beyond<S> {
    // The refusal's number, 13. A number: docs/store.md numbers this refusal, and the promise is public.
    pub fn number(&self) -> u8
        ensures answer { result ≡ refusal_number self.now }
    {
        13
    }
}

impl<S: Store> Window<S> {
    // A window on a store that is handed over, or lent by `&mut`; refused if it does not lie within the limits.
    pub fn new(below: S, spans: Spans) -> Result<Window<S>, Beyond<S>>
        ensures answer { MatchResult result (λ _. Within (S.Store.disk below) spans) (λ b. (refusal_number b ≡ 13) × (Within (S.Store.disk below) spans → ⊥)) }
        ensures after { MatchResult result (λ w. (w.below ≡ below) × (w.spans ≡ spans)) (λ b. b.store ≡ below) }
        ensures limits { IfOk result (λ w. (k : AnyKind) → (view (S.Store.disk w.below) w.spans).limit k ≡ width_of spans k) }
    {
        if spans.lie_within(&below) {
            Ok(Window { below, spans })
        } else {
            Err(Beyond { store: below })
        }
    }

    // The store below.
    pub fn into_inner(self) -> S
        ensures answer { result ≡ self.below }
    {
        let Window { below, spans: _ } = self;
        below
    }

    // The number below of a number of the window; one at or above its limit is bad.
    fn place(&self, kind: Kind, number: u32) -> Result<u32, Refusal>
        ensures answer { MatchResult result (λ p. (number < (view (S.Store.disk self.now.below) self.now.spans).limit kind) × (p ≡ base_of self.now.spans kind + number)) (λ e. ((view (S.Store.disk self.now.below) self.now.spans).limit kind ≤ number) × (e ≡ Bad)) }
    {
        let span = self.spans.of(kind);
        if number < span.count_below(self.below.limit(kind)) {
            Ok(span.base + number)
        } else {
            Err(Refusal::Bad)
        }
    }
}

impl<S: Store> Store for Window<S> {
    ghost disk = { λ w. view (S.Store.disk w.below) w.spans };

    ghost Frame = { Around S.Store.Frame };

    ghost rest = { λ w. around (S.Store.disk w.below) (S.Store.rest w.below) w.spans };

    ghost sound = { λ w. view_sound (S.Store.disk w.below) w.spans (S.Store.sound w.below) };

    fn load(&self, kind: Kind, number: u32, buffer: &mut [u8]) -> Result<usize, Refusal> {
        let at = self.place(kind, number)?;
        self.below.load(kind, at, buffer)
    }

    fn put(&mut self, kind: Kind, number: u32, row: &[u8]) -> Result<(), Refusal> {
        let at = self.place(kind, number)?;
        self.below.put(kind, at, row)
    }

    fn drop_row(&mut self, kind: Kind, number: u32) -> Result<(), Refusal> {
        let at = self.place(kind, number)?;
        self.below.drop_row(kind, at)
    }

    fn limit(&self, kind: Kind) -> u32 {
        self.spans.of(kind).count_below(self.below.limit(kind))
    }

    fn free(&self) -> u32 {
        self.below.free()
    }

    fn power(&mut self, writes: u32) {
        self.below.power(writes);
    }
}

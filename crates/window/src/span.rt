// Where a window lies: a run of the numbers of each kind.
ghost use Rattle.std.specs.Prelude.{◌≡◌, ◌+◌, ◌-◌, ◌≤◌, min, Decides};
ghost use Rattle.window.specs.Span.{span_of, Within};

use store::Store;
use store::kind::Kind;

// Numbers base, base + 1, .. of one kind below, as many as the width says.
#[derive(Clone, Copy, PartialEq, Eq, Debug)]
pub struct Span {
    pub base: u32,
    pub width: u32,
}

#[derive(Clone, Copy, PartialEq, Eq, Debug)]
pub struct Spans {
    pub sessions: Span,
    pub messages: Span,
}

impl Span {
    // How many of its numbers lie below a limit.
    pub(crate) fn count_below(self, limit: u32) -> u32
        ensures answer { result ≡ min self.width (limit - self.base) }
    {
        self.width.min(limit.saturating_sub(self.base))
    }

    // Whether its numbers end within a limit.
    fn ends_within(self, limit: u32) -> bool
        ensures answer { Decides result (self.base + self.width ≤ limit) }
    {
        self.width <= limit && self.base <= limit - self.width
    }
}

impl Spans {
    // The span of one kind.
    pub fn of(&self, kind: Kind) -> Span
        ensures answer { result ≡ span_of self.now kind }
    {
        match kind {
            Kind::Session => self.sessions,
            Kind::Message => self.messages,
        }
    }

    // Whether the numbers of every kind end within its limit.
    pub(crate) fn lie_within<S: Store>(&self, store: &S) -> bool
        ensures answer { Decides result (Within (S.Store.disk store.now) self.now) }
    {
        self.sessions.ends_within(store.limit(Kind::Session))
            && self.messages.ends_within(store.limit(Kind::Message))
    }
}

// Links.
ghost use Rattle.std.specs.Prelude.{◌≡◌};
ghost use Rattle.broker.specs.Link.{return_code};

/// Why a CONNECT was rejected: another protocol level, no client identifier, or no room for a new session.
#[derive(Clone, Copy, PartialEq, Eq, Debug)]
pub enum Rejection {
    Level = 1,
    Identifier = 2,
    Full = 3,
}

/// What a link is: free, opened without a CONNECT yet, connected to a session, or rejected with its CONNACK left to hand out.
#[derive(Clone, Copy, PartialEq, Eq, Debug)]
pub enum Link {
    Free,
    Opened,
    Connected { session: u8 },
    Rejected { why: Rejection },
}

impl Rejection {
    /// The return code of its CONNACK.
    pub fn return_code(self) -> u8
        ensures answer { result ≡ return_code self }
    {
        self as u8
    }
}

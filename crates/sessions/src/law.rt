// The layout and its meaning.
ghost use Rattle.sessions.specs.Session.{SessionLaw};

/// Rows and lawful sessions stand for each other, and every row fits 553 bytes.
pub fn session_law()
    ensures law { SessionLaw }
{}

// The layout and its meaning.
ghost use Rattle.messages.specs.Message.{MessageLaw};

/// Rows and lawful messages stand for each other, and every row fits 364 bytes.
pub fn message_law()
    ensures law { MessageLaw }
{}

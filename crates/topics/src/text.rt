// The text rule, which every name in a packet or a row follows.
ghost use Rattle.std.specs.Prelude.{◌≡◌};
ghost use Rattle.std.specs.Str.{chars};
ghost use Rattle.topics.specs.Text.{TextLaw, allowed, every, is_text};

use std::str::from_utf8;

/// Whether the bytes are text: well-formed UTF-8 without U+0000.
#[tactic(auto, using(crate::proofs::Texts::text_utf8, crate::proofs::Texts::text_not_utf8))]
pub fn is_text(bytes: &[u8]) -> bool
    ensures answer { result ≡ is_text bytes.now }
{
    from_utf8(bytes).is_ok_and(is_allowed)
}

fn is_allowed(text: &str) -> bool
    ensures answer { result ≡ every allowed (chars text.now) }
{
    text.chars().all(|c| c != '\0')
}

/// A text is the encoding of some characters that are all allowed, and nothing else is one.
#[tactic(auto, using(crate::proofs::Texts::text_law))]
pub fn text_law()
    ensures law { TextLaw }
{}

// Texts in rows.
ghost use Rattle.std.specs.Prelude.{◌≡◌};
ghost use Rattle.rows.specs.Text.{TextLaw, text_in, texts};

/// The bytes behind a length byte, and what follows them; none where bytes are missing.
pub fn split_text(bytes: &[u8]) -> Option<(&[u8], &[u8])>
    ensures answer { texts result ≡ text_in bytes.now }
{
    let (size, rest) = bytes.split_first()?;
    rest.split_at_checked(*size as usize)
}

/// A text and what follows it are told apart again, and nothing else is told apart so.
pub fn text_law()
    ensures law { TextLaw }
{}

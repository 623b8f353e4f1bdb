// The table of packet types by first byte, as text.
ghost use Rattle.std.specs.Prelude.{◌≡◌, ◌%◌, [], ◌∷◌, IfOk, if◌then◌else◌, string_bytes, nat_eq};
ghost use Rattle.commands.specs.Types.{types_text};

use frame::first_byte::type_number;
use std::alloc::{AllocError, Global};

// Sixteen lines of sixteen decimal numbers with single blanks: the type number of each first byte, 0 for an illegal one.
pub fn types_text(heap: Global) -> Result<String, AllocError>
    ensures answer { IfOk result (λ text. string_bytes text ≡ types_text 256) }
{
    let mut text = String::new(heap);
    for first in 0..=255u8 {
        write!(text, "{}{}", type_number(first), separator(first))?;
    }
    Ok(text)
}

// A line feed behind the last number of a line, and a blank behind any other.
fn separator(first: u8) -> &'static str
    ensures answer { result.now ≡ (if nat_eq (first % 16) 15 then 10 else 32) ∷ [] }
{
    if first % 16 == 15 { "\n" } else { " " }
}

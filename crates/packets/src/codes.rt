// The codes of a CONNACK and a SUBACK.
ghost use Rattle.std.specs.Prelude.{◌≡◌};
ghost use Rattle.packets.specs.Reads.{is_code};

/// The highest return code of a CONNACK.
pub const MAX_RETURN_CODE: u8 = 5;

/// The code of a SUBACK for a filter that was refused.
pub const REFUSED: u8 = 0x80;

/// Whether a SUBACK may carry this code: a granted quality of service, or the refusal.
pub fn is_code(code: u8) -> bool
    ensures answer { result ≡ is_code code }
{
    code <= 2 || code == REFUSED
}

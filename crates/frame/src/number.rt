// Two-byte numbers, high byte first.
ghost use Rattle.std.specs.Prelude.{◌≡◌};
ghost use Rattle.frame.specs.Number.{number_in, number_bytes, number_and_rest, NumberLaw};

// The number of the first two bytes and what follows them, or none where there are fewer.
pub fn read_number(bytes: &[u8]) -> Option<(u16, &[u8])>
    ensures answer { number_and_rest result ≡ number_in bytes.now }
{
    let (number, rest) = bytes.split_first_chunk()?;
    Some((u16::from_be_bytes(*number), rest))
}

// The two bytes of a number.
pub fn write_number(number: u16) -> [u8; 2]
    ensures answer { result ≡ number_bytes number }
{
    number.to_be_bytes()
}

// What is written of any number, whatever follows, is read back as that number and what follows.
pub fn number_law()
    ensures law { NumberLaw }
{}

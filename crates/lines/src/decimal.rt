// Decimal numbers.
ghost use Rattle.lines.specs.Decimal.{Reads, DecimalLaw};

use std::str::from_utf8;

// The number that a word of one or more digits writes, or none where it is another word or 2^32 or more.
pub fn read_decimal(word: &[u8]) -> Option<u32>
    ensures answer { Reads word.now result }
{
    if word.starts_with(b"+") {
        return None;
    }
    from_utf8(word).ok()?.parse().ok()
}

// What is printed of any number below 2^32 is a word that is read as that number.
pub fn decimal_law()
    ensures law { DecimalLaw }
{}

// Rows written into a buffer.
ghost use Rattle.std.specs.Prelude.{◌≡◌, cond, length, Ok, Err, nat_le};
ghost use Rattle.rows.specs.Write.{Written, pieced};
ghost use Rattle.rows.specs.declared.write.Unwritten.TheVariants.{Short};

/// Why no row was written: a part is against the layout, a ninth filter, no such target or origin,
/// nothing left (the row is to be dropped), or too small a buffer.
#[derive(Clone, Copy, Debug, PartialEq, Eq)]
pub enum Unwritten {
    Unlawful,
    Full,
    Absent,
    Over,
    Short,
}

/// Writes the pieces one after the other at the buffer's start and answers their length; too small a buffer stays as it was.
pub fn write_all(pieces: &[&[u8]], out: &mut [u8]) -> Result<usize, Unwritten>
    ensures buffer { Written (Ok (pieced pieces.now)) result out.old out.new }
{
    check_room(pieces, out.len())?;
    // A running end: each piece goes behind the one before. The writer of packets has such a loop too (crate writer).
    let mut end = 0;
    for piece in pieces {
        let start = end;
        end += piece.len();
        out[start..end].copy_from_slice(piece);
    }
    Ok(end)
}

// Refuses a room that the pieces don't fit.
fn check_room(pieces: &[&[u8]], room: usize) -> Result<(), Unwritten>
    ensures answer { result ≡ cond (nat_le (length (pieced pieces.now)) room) (Ok tt) (Err Short) }
{
    let mut left = room;
    for piece in pieces {
        left = left.checked_sub(piece.len()).ok_or(Unwritten::Short)?;
    }
    Ok(())
}

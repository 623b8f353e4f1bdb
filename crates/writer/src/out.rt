// A packet's bytes written into an out buffer.
ghost use Rattle.std.specs.Prelude.{◌≡◌, ◌+◌, ◌≤◌, ◌∷◌, ◌++◌, length as len};
ghost use Rattle.frame.specs.Length.{length_bytes};
ghost use Rattle.writer.specs.Out.{Sent, counted, front, joined};

use frame::length::ops::write_length;
use frame::parts::BODY_BYTES;

// Why nothing was written: the buffer is too short for the packet, whose length is told, or the packet
// is none that may be sent.
#[derive(Clone, Copy, PartialEq, Eq, Debug)]
pub enum WriteError {
    Short { needed: usize },
    Unlawful,
}

// A packet in the order in which it is written: the remaining length goes between the first byte and the body's pieces.
#[derive(Clone, Copy)]
pub(crate) struct Image<'a> {
    pub(crate) first: u8,
    pub(crate) body: &'a [&'a [u8]],
}

impl Image<'_> {
    // Writes the packet at the buffer's start and answers its length, or leaves the buffer as it was: the buffer
    // is too short, or the fields are unlawful or the body has more than 540 bytes.
    // The flag stands beside the packet, since an unlawful one's length is told too where the buffer is too short.
    pub(crate) fn write_to(self, lawful: bool, out: &mut [u8]) -> Result<usize, WriteError>
        ensures sent { Sent lawful self.entry.first (joined self.entry.body.now) result out.old out.new }
    {
        let count = self.body_length();
        let needed = count.saturating_add(1 + length_width(count));
        if out.len() < needed {
            return Err(WriteError::Short { needed });
        }
        if !lawful || count > BODY_BYTES {
            return Err(WriteError::Unlawful);
        }
        let length = write_length(count as u32).ok_or(WriteError::Unlawful)?;
        Ok(self.put(length.as_slice(), out))
    }

    // How many bytes follow the remaining length, as far as a usize counts.
    fn body_length(self) -> usize
        ensures answer { result ≡ counted (len (joined self.entry.body.now)) }
    {
        self.body
            .iter()
            .fold(0, |count: usize, piece| count.saturating_add(piece.len()))
    }

    // Writes the packet into a buffer that has room for it. Rows are put together by such a loop too (crate rows): its three lines
    // are all that the two share, and a function in a crate below both would be no plainer. A running end: each piece goes behind the one before.
    fn put(self, length: &[u8], out: &mut [u8]) -> usize
        requires room { 1 + len length.now + len (joined self.body.now) ≤ len out.old }
        ensures answer { result ≡ len (self.entry.first ∷ length.now ++ joined self.entry.body.now) }
        ensures buffer { out.new ≡ front out.old (self.entry.first ∷ length.now ++ joined self.entry.body.now) }
    {
        let mut end = 1 + length.len();
        out[0] = self.first;
        out[1..end].copy_from_slice(length);
        for piece in self.body {
            let at = end;
            end += piece.len();
            out[at..end].copy_from_slice(piece);
        }
        end
    }
}

// How many bytes a remaining length takes: as many as are written, or four where four do not hold it.
fn length_width(count: usize) -> usize
    ensures answer { result ≡ len (length_bytes count) }
    ensures bound { result ≤ 4 }
{
    u32::try_from(count)
        .ok()
        .and_then(write_length)
        .map_or(4, |length| length.as_slice().len())
}

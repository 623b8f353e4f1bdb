// What is done to the memory of one row. Only its making allocates.
ghost use Rattle.std.specs.Prelude.{◌≡◌, [], length, IfOk, ◌==◌};
ghost use Rattle.store.specs.Row.{held, row_answer, read_answer, read_buffer, write_answer, write_after};

use crate::ROW_BYTES;
use crate::kind::Refusal;
use crate::row::RowBuffer;
use std::alloc::{AllocError, Global};

// A row that is put has 1 to 560 bytes; any other is bad.
pub fn check_row(row: &[u8]) -> Result<(), Refusal>
    ensures answer { result ≡ row_answer row.now }
{
    if row.is_empty() || row.len() > ROW_BYTES {
        return Err(Refusal::Bad);
    }
    Ok(())
}

impl RowBuffer {
    // Memory that holds no row yet, or the error that there is none.
    pub fn new(heap: Global) -> Result<RowBuffer, AllocError>
        ensures answer { IfOk result (λ b. held b ≡ []) }
    {
        let bytes = Vec::with_capacity(heap, ROW_BYTES)?;
        Ok(RowBuffer { bytes })
    }

    // How many bytes it holds; 0 where there is no row.
    pub fn len(&self) -> usize
        ensures answer { result ≡ length (held self.now) }
    {
        self.bytes.len()
    }

    // There is no row.
    pub fn is_empty(&self) -> bool
        ensures answer { result ≡ (length (held self.now) == 0) }
    {
        self.bytes.is_empty()
    }

    // Copies the row to the buffer's start and answers its length; a buffer below 560 bytes is bad and stays.
    pub fn read(&self, buffer: &mut [u8]) -> Result<usize, Refusal>
        ensures answer { result ≡ read_answer (held self.now) buffer.old }
        ensures buffer { buffer.new ≡ read_buffer result (held self.now) buffer.old }
    {
        if buffer.len() < ROW_BYTES {
            return Err(Refusal::Bad);
        }
        let n = self.len();
        buffer[0..n].copy_from_slice(self.bytes.as_slice());
        Ok(n)
    }

    // Takes the bytes in place of what it held; more than 560 are bad and alter nothing.
    pub fn write(&mut self, row: &[u8]) -> Result<(), Refusal>
        ensures answer { result ≡ write_answer row.now }
        ensures after { held self.new ≡ write_after result (held self.old) row.now }
    {
        // The capacity is at least 560; tested with it, so that no code that asks for more memory is left.
        if row.len() > ROW_BYTES.min(self.bytes.capacity()) {
            return Err(Refusal::Bad);
        }
        self.clear();
        self.bytes.extend_from_slice(row).unwrap();
        Ok(())
    }

    // Holds no row any more.
    pub fn clear(&mut self)
        ensures after { held self.new ≡ [] }
    {
        self.bytes.clear();
    }
}

// The session store: its calls, and its meaning as a disk of rows that every implementation shows.
#![tactic(auto)]

ghost use Rattle.std.specs.Prelude.{◌≡◌, ◌≤◌, IfOk};
ghost use Rattle.std.specs.Borrow.{GName};
ghost use Rattle.store.specs.Disk.{Disk, Sound, load_answer, load_buffer, put_answer, put_after, drop_answer, drop_after, powered};

pub mod budget;
pub mod change;
pub mod key;
pub mod kind;
pub mod making;
pub mod row;
#[cfg(test)]
mod tests;

use kind::{Kind, Refusal};

// A row has 1 to this many bytes, and a buffer to load into at least as many.
pub const ROW_BYTES: usize = 560;

// Rows under a kind and a number. A write is whole or absent, and a refusal alters nothing.
// A kind and a number stay two plain values: each store has limits of its own, and refuses a bad key itself.
pub trait Store {
    // The rows, limits, free rows and writes left that this store shows.
    ghost disk: { Self → Disk };

    // What lies outside this store's view, which no call alters.
    ghost Frame: { Type 0 };

    ghost rest: { Self → Frame };

    // Rows are short enough, and none stands at or above its limit.
    ghost sound: { (s : Self) → Sound (disk s) };

    // The row's length, 0 where it is absent, and its bytes at the buffer's start; the rest of the buffer stays.
    fn load(&self, kind: Kind, number: u32, buffer: &mut [u8]) -> Result<usize, Refusal>
        ensures answer { result ≡ load_answer (disk self.now) kind number buffer.old }
        ensures bound { IfOk result (λ n. n ≤ 560) }
        ensures buffer { buffer.new ≡ load_buffer result (disk self.now) kind number buffer.old };

    // Writes the row, whole or not at all.
    fn put(&mut self, kind: Kind, number: u32, row: &[u8]) -> Result<(), Refusal>
        ensures answer { result ≡ put_answer (disk self.old) kind number row.now }
        ensures after { disk self.new ≡ put_after result (disk self.old) kind number row.now }
        ensures rest { rest self.new ≡ rest self.old };

    // Removes the row; one that is absent is done without a write.
    fn drop_row(&mut self, kind: Kind, number: u32) -> Result<(), Refusal>
        ensures answer { result ≡ drop_answer (disk self.old) kind number }
        ensures after { disk self.new ≡ drop_after result (disk self.old) kind number }
        ensures rest { rest self.new ≡ rest self.old };

    // Numbers of this kind lie below the limit.
    fn limit(&self, kind: Kind) -> u32
        ensures answer { result ≡ (disk self.now).limit kind };

    // How many rows more can be put.
    fn free(&self) -> u32
        ensures answer { result ≡ (disk self.now).free };

    // From now on this many writes are left before power fails.
    fn power(&mut self, writes: u32)
        ensures after { disk self.new ≡ powered (disk self.old) writes }
        ensures rest { rest self.new ≡ rest self.old };
}

// A store that is lent is the store.
impl<S: Store> Store for &mut S {
    ghost disk = { λ s. S.Store.disk s.now };

    ghost Frame = { GName × S.Store.Frame };

    ghost rest = { λ s. (s.ghost_name, S.Store.rest s.now) };

    ghost sound = { λ s. S.Store.sound s.now };

    fn load(&self, kind: Kind, number: u32, buffer: &mut [u8]) -> Result<usize, Refusal> {
        (**self).load(kind, number, buffer)
    }

    fn put(&mut self, kind: Kind, number: u32, row: &[u8]) -> Result<(), Refusal> {
        (**self).put(kind, number, row)
    }

    fn drop_row(&mut self, kind: Kind, number: u32) -> Result<(), Refusal> {
        (**self).drop_row(kind, number)
    }

    fn limit(&self, kind: Kind) -> u32 {
        (**self).limit(kind)
    }

    fn free(&self) -> u32 {
        (**self).free()
    }

    fn power(&mut self, writes: u32) {
        (**self).power(writes);
    }
}

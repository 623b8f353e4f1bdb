// What a store has left.
ghost use Rattle.std.specs.Prelude.{◌≡◌};
ghost use Rattle.store.specs.Budget.{budget_for, spend_answer, spend_after, take_answer, take_after};

use crate::kind::Refusal;
use crate::making::{MAX_ROWS, MakeError};

// How many rows more can be put, and how many writes are left before power fails.
#[derive(Clone, Copy, PartialEq, Eq, Debug)]
pub struct Budget {
    pub free: u32,
    pub writes: u32,
}

impl Budget {
    // All of so many rows are free, and no write is left; more than 1,152 rows are bad.
    pub fn new(rows: u32) -> Result<Budget, MakeError>
        ensures answer { result ≡ budget_for rows }
    {
        if rows > MAX_ROWS {
            return Err(MakeError::Bad);
        }
        Ok(Budget {
            free: rows,
            writes: 0,
        })
    }

    // Spends a write; a refusal alters nothing.
    pub fn spend(&mut self) -> Result<(), Refusal>
        ensures answer { result ≡ spend_answer self.old }
        ensures after { self.new ≡ spend_after result self.old }
    {
        self.writes = self.writes.checked_sub(1).ok_or(Refusal::Gone)?;
        Ok(())
    }

    // Spends a write, and a free row for a row that was absent; a refusal alters nothing.
    pub fn take(&mut self, absent: bool) -> Result<(), Refusal>
        ensures answer { result ≡ take_answer self.old absent }
        ensures after { self.new ≡ take_after result self.old absent }
    {
        let writes = self.writes.checked_sub(1).ok_or(Refusal::Gone)?;
        self.free = self
            .free
            .checked_sub(u32::from(absent))
            .ok_or(Refusal::NoRoom)?;
        self.writes = writes;
        Ok(())
    }
}

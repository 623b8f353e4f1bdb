// Searches over the rows of any store.
#![tactic(auto)]

/// Messages have slots below this.
pub const SLOTS: u32 = 256;

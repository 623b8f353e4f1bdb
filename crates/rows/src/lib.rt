// What the layouts of all rows share: texts behind a length byte, and rows written piece by piece.
#![tactic(auto)]

pub mod text;
pub mod write;

/// The most bytes that a row has.
// The store's ROW_BYTES again: for this one number every layout would stand on the store.
pub const MAX_ROW: usize = 560;

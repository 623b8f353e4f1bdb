// What code in Rust or C may call: each function stands on numbers and slices alone.
#![tactic(auto)]

pub mod operation;
pub mod read;
pub mod script;
pub mod split;

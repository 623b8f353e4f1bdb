// Packets written as bytes, and what is written read back.
#![tactic(auto)]

pub mod examples;
mod filters;
pub mod laws;
pub mod out;
pub mod write;

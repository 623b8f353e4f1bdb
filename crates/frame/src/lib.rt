// How a packet's first byte, length bytes and body are told apart.
#![tactic(auto)]

pub mod field;
pub mod first_byte;
pub mod length;
pub mod number;
pub mod parts;
#[cfg(test)]
mod tests;

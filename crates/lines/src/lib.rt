// The texts of a command line: bytes in hexadecimal, escaped text, decimal numbers, words.
#![tactic(auto)]

pub mod decimal;
pub mod error;
pub mod escape;
pub mod hex;
#[cfg(test)]
mod tests;
pub mod words;

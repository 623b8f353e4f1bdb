// Message rows: their layout, and views that borrow from them.
#![tactic(auto)]

pub mod law;
pub mod parts;
pub mod target;
#[cfg(test)]
mod tests;
pub mod view;

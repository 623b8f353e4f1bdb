// Session rows: their layout, and views that borrow from them.
#![tactic(auto)]

pub mod law;
#[cfg(test)]
mod tests;
pub mod view;

// Stores on one another, run by example.
#![tactic(auto)]

#[cfg(test)]
mod tests;

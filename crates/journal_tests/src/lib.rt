// A journal, run by example.
#![tactic(auto)]

#[cfg(test)]
mod tests;

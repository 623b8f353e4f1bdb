// Examples of packets that are read and written again.
#![tactic(auto)]

#[cfg(test)]
mod tests;

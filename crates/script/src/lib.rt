// What the rig answers to a line of its script.
#![tactic(auto)]

pub mod answer;
pub mod calls;
pub mod command;
pub mod texts;

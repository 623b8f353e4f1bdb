// What the service tool answers to a command line.
#![tactic(auto)]

pub mod answer;
pub mod command;
pub mod dissect;
pub mod types;

// Texts, topic names, topic filters and their matching, and the quality of service that filters grant.
#![tactic(auto)]

pub mod levels;
pub mod matching;
pub mod names;
pub mod qos;
pub mod subscription;
pub mod text;

// What the broker does: its links, replies, answers and refusals, and the meaning of its calls.
#![tactic(auto)]

pub mod answer;
pub mod laws;
pub mod link;
pub mod reply;

/// Links are numbered below this.
pub const LINKS: u32 = 32;

/// The most replies that wait on a link.
pub const MAX_REPLIES: usize = 16;

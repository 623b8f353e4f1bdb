// The packets of MQTT 3.1.1, what they mean, and how they are read.
#![tactic(auto)]

pub mod codes;
mod connect;
mod cursor;
pub mod filters;
pub mod packet;
mod publish;
pub mod reader;
mod subscribe;

// A packet's octets read and written.
#![tactic(auto)]

pub mod entries;
pub mod message;
pub mod output;

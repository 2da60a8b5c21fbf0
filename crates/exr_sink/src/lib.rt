//! Sinks of bytes, each by its meaning: the bytes taken, how many more it
//! takes, and the stop that it answers then.
#![tactic(auto)]

pub mod block;
pub mod lent;
mod part;
pub mod sink;
pub mod write;

//! Sources of bytes, each by its meaning: the bytes to come, and the stop
//! behind them.
#![tactic(auto)]

pub mod bytes;
pub mod chain;
pub mod held;
pub mod source;

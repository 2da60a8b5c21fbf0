//! Bytes taken from any source: a buffer filled, or the next byte.
#![tactic(auto)]

pub mod read;

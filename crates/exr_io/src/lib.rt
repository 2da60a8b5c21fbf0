//! Numbers taken from sources and given to sinks: one by one, in runs, and
//! the single byte that ends a sequence.
#![tactic(auto)]

pub mod number;
pub mod runs;
pub mod sequence_end;

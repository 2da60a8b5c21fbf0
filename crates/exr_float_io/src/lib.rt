//! Floats in a file: read at the front of some bytes into their bits, and
//! given to a sink.
#![tactic(auto)]

pub mod fields;
pub mod laws;

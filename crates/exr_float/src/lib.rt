//! Floats by their bits. A value that lies beside borrowed bytes holds the
//! bits; its users are given floats.
#![tactic(auto)]

pub mod bits;
pub mod laws;
pub mod values;
pub mod word;

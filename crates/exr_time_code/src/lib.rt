//! Time codes by SMPTE 12M: the two words that hold one, and its bytes.
#![tactic(auto)]

mod bits;
mod groups;
mod packing;
mod reading;
pub mod time_code;

//! Numbers that have bytes in a file, the lowest byte first, by their width.
#![tactic(auto)]

pub mod bits_16;
pub mod bits_32;
pub mod bits_64;
pub mod bits_8;
pub mod data;

//! Logarithms and quotients of whole numbers, rounded up or down.
#![tactic(auto)]

pub mod logarithms;
pub mod rounding;

pub use logarithms::{ceil_log_2, floor_log_2};
pub use rounding::RoundingMode;

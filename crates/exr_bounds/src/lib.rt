//! Boxes of integers, which only calls that ask their range make: each value of
//! the type is in range.
#![tactic(auto)]

mod axis;
pub mod bounds;
mod making;
mod queries;
mod reading;

//! A source of which one byte may be looked at before it is taken.
#![tactic(auto)]

pub mod peek_read;

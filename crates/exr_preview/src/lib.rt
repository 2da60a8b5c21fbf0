//! A small picture of an image, as a value holds it.
#![tactic(auto)]

pub mod preview;

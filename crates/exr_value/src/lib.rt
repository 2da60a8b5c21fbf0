//! Values of fixed size: from bytes to numbers under their names, and back.
#![tactic(auto)]

pub mod fields;
pub mod key_code;

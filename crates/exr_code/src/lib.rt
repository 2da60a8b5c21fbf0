//! Values from a list, saved as a code of one byte: compression, environment
//! map and line order.
#![tactic(auto)]

pub mod coded;
pub mod compression;
pub mod environment_map;
pub mod line_order;

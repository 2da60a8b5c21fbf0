//! How an image is divided into tiles.
#![tactic(auto)]

pub mod level_mode;
mod modes;
pub mod tile_description;

//! Vectors of two coordinates.
#![tactic(auto)]

pub mod conversions;
pub mod coordinates;
pub mod images;
pub mod order;
pub mod pairs;

/// Simple two-dimensional vector of any numerical type.
/// Supports only few mathematical operations
/// as this is used mainly as data struct.
#[derive(Clone, Copy, Debug, PartialEq, Eq, Default)]
pub struct Vec2<T>(pub T, pub T);

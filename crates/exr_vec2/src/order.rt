//! The larger and the smaller of two vectors, coordinate by coordinate.
ghost use Rattle.exr_vec2.specs.Vectors.{Larger, Smaller};

use crate::Vec2;
use exr_number::Number;

// `max` and `min` stay two functions, by the names of the ported crate: each is a call of std's.
impl<T: Number> Vec2<T> {
    /// The vector with the larger of the first components and the larger of the second components.
    pub fn max(self, other: Self) -> Self
        ensures x { Larger (T.value self.0) (T.value other.0) (T.value result.0) }
        ensures y { Larger (T.value self.1) (T.value other.1) (T.value result.1) }
    {
        Vec2(self.0.max(other.0), self.1.max(other.1))
    }

    /// The vector with the smaller of the first components and the smaller of the second components.
    pub fn min(self, other: Self) -> Self
        ensures x { Smaller (T.value self.0) (T.value other.0) (T.value result.0) }
        ensures y { Smaller (T.value self.1) (T.value other.1) (T.value result.1) }
    {
        Vec2(self.0.min(other.0), self.1.min(other.1))
    }
}

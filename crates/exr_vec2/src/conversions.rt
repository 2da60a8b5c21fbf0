//! Vectors whose coordinates have another type.
ghost use Rattle.std.specs.Prelude.{pos};
ghost use Rattle.exr_vec2.specs.Conversions.{Converts, NotNegative, AtMostI32};
ghost use Rattle.exr_vec2.specs.Vectors.{Coordinates};

use crate::Vec2;

/// All components of a vector converted to a new type: either a vector of that new type, or the
/// error of the first component that cannot be converted.
impl<S: Drop, T: TryFrom<S> + Drop> TryFrom<Vec2<S>> for Vec2<T> {
    type Error = T::Error;

    ghost try_from_gives = { Converts T.TryFrom.try_from_gives };

    fn try_from(value: Vec2<S>) -> Result<Self, T::Error> {
        let Vec2(x, y) = value;
        let x = T::try_from(x)?;
        let y = T::try_from(y)?;
        Ok(Vec2(x, y))
    }
}

impl Vec2<i32> {
    /// The same vector of `usize`, or `None` exactly where a component is negative.
    pub fn to_usize(self) -> Option<Vec2<usize>>
        ensures { Coordinates (λ n. pos n) NotNegative self.0 NotNegative self.1 result }
    {
        Vec2::<usize>::try_from(self).ok()
    }
}

impl Vec2<usize> {
    /// The same vector of `i32`, or `None` exactly where a component is above `i32::MAX`.
    pub fn to_i32(self) -> Option<Vec2<i32>>
        ensures { Coordinates (λ z. z) AtMostI32 (pos self.0) AtMostI32 (pos self.1) result }
    {
        Vec2::<i32>::try_from(self).ok()
    }
}

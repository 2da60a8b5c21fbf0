//! The coordinates of a vector.
ghost use Rattle.std.specs.Prelude.{◌≡◌};

use crate::Vec2;

// Four names of the ported crate for two components: `width` and `height` call `x` and `y`.
impl<T: Drop> Vec2<T> {
    /// The first component of this 2D vector.
    pub fn x(self) -> T
        ensures { result ≡ self.0 }
    {
        self.0
    }

    /// The second component of this 2D vector.
    pub fn y(self) -> T
        ensures { result ≡ self.1 }
    {
        self.1
    }

    /// The first component of this 2D vector, seen as a size.
    pub fn width(self) -> T
        ensures { result ≡ self.0 }
    {
        self.x()
    }

    /// The second component of this 2D vector, seen as a size.
    pub fn height(self) -> T
        ensures { result ≡ self.1 }
    {
        self.y()
    }
}

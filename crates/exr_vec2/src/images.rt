//! Vectors as the sizes of images and as places in them.
ghost use Rattle.std.specs.Prelude.{◌+ℤ◌, ◌*ℤ◌};
ghost use Rattle.exr_number.specs.Numbers.{Within, Answers};
ghost use Rattle.exr_vec2.specs.Vectors.{IndexFits};

use crate::Vec2;
use exr_number::Number;

impl<T: Number> Vec2<T> {
    /// Seeing this vector as a dimension or size (width and height), the area that this dimension
    /// contains (`width * height`), or `None` exactly where it does not fit the type.
    pub fn area(self) -> Option<T>
        ensures { Answers T.value (Within T.range) (T.value self.0 *ℤ T.value self.1) result }
    {
        self.0.checked_mul(self.1)
    }

    /// The index of this place in an image of that resolution, whose pixels are stored row by row, one
    /// after another: `y * width + x`. Answers `None` exactly where the place does not lie in the
    /// image or the index does not fit the type.
    pub fn flat_index_for_size(self, resolution: Self) -> Option<T>
        ensures { Answers T.value (IndexFits T.range (T.value self.0) (T.value self.1) (T.value resolution.0) (T.value resolution.1)) ((T.value self.1 *ℤ T.value resolution.0) +ℤ T.value self.0) result }
    {
        let Vec2(x, y) = self;
        let Vec2(width, height) = resolution;
        let zero = T::from(0u8);
        if !(zero..width).contains(&x) || !(zero..height).contains(&y) {
            return None;
        }
        y.checked_mul(width)?.checked_add(x)
    }
}

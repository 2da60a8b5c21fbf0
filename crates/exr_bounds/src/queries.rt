ghost use Rattle.std.specs.Prelude.{◌≡◌};
ghost use Rattle.layout.specs.Boxes.{make_box};
ghost use Rattle.exr_bounds.specs.Bounds.{behind_of, box_of, box_seen, fits_in, greatest_of, inside, moved, position_of, sides_of};

use crate::bounds::IntegerBounds;
use exr_error::refusal::Refusal;
use exr_vec2::Vec2;

impl IntegerBounds {
    /// The least corner.
    pub fn position(self) -> Vec2<i32>
        ensures { result ≡ position_of (box_of self) }
    {
        Vec2(self.x.least, self.y.least)
    }

    /// How many places there are on each axis, at least 1.
    pub fn size(self) -> Vec2<usize>
        ensures { result ≡ sides_of (box_of self) }
    {
        Vec2(self.x.side as usize, self.y.side as usize)
    }

    /// The greatest corner, which belongs to the box.
    pub fn max(self) -> Vec2<i32>
        ensures { result ≡ greatest_of (box_of self) }
    {
        Vec2(self.x.last(), self.y.last())
    }

    /// The corner behind the greatest, which does not belong to the box.
    pub fn end(self) -> Vec2<i32>
        ensures { result ≡ behind_of (box_of self) }
    {
        Vec2(self.x.end(), self.y.end())
    }

    /// Some exactly if no greatest size is given or neither side is larger. Its
    /// range needs no question: every box is in range.
    pub fn validate(self, max_size: Option<Vec2<usize>>) -> Option<()>
        ensures { result ≡ fits_in (box_of self) max_size }
    {
        max_size
            .is_none_or(|most| self.x.side as usize <= most.0 && self.y.side as usize <= most.1)
            .then_some(())
    }

    /// Whether each place of the other box is a place of this one.
    pub fn contains(self, subset: Self) -> bool
        ensures { result ≡ inside (box_of self) (box_of subset) }
    {
        self.x.spans(subset.x) && self.y.spans(subset.y)
    }

    /// The box moved by a distance, or 11 where it would leave the range.
    pub fn with_origin(self, origin: Vec2<i32>) -> Result<Self, Refusal>
        ensures { box_seen result ≡ make_box (moved origin (box_of self)) }
    {
        Ok(IntegerBounds {
            x: self.x.moved(origin.0)?,
            y: self.y.moved(origin.1)?,
        })
    }
}

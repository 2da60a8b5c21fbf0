ghost use Rattle.std.specs.Prelude.{◌≡◌, pos};
ghost use Rattle.layout.specs.Boxes.{make_box};
ghost use Rattle.layout.specs.Boxes.{box_of as box_of_corners};
ghost use Rattle.exr_bounds.specs.Bounds.{box_at, BoxesStand, box_seen};

use crate::axis::Axis;
use crate::bounds::IntegerBounds;
use exr_error::refusal::Refusal;
use exr_vec2::Vec2;

impl IntegerBounds {
    /// The box at a position, with its sides. Refuses with 11 unless on each
    /// axis the side is at least 1, the position at least −1073741822 and the
    /// greatest place at most 1073741822.
    pub fn new(start: Vec2<i32>, size: Vec2<usize>) -> Result<Self, Refusal>
        ensures { box_seen result ≡ make_box (box_at start size) }
    {
        Ok(IntegerBounds {
            x: Axis::new(start.0, size.0)?,
            y: Axis::new(start.1, size.1)?,
        })
    }

    /// The box at (0, 0) with these sides, or 11.
    pub fn from_dimensions(size: Vec2<usize>) -> Result<Self, Refusal>
        ensures { box_seen result ≡ make_box (box_at (pos 0, pos 0) size) }
    {
        IntegerBounds::new(Vec2(0, 0), size)
    }

    /// The box of two corners in any order, or 11.
    pub(crate) fn of_corners(a: Vec2<i32>, b: Vec2<i32>) -> Result<Self, Refusal>
        ensures { box_seen result ≡ make_box (box_of_corners a.0 a.1 b.0 b.1) }
    {
        Ok(IntegerBounds {
            x: Axis::between(a.0, b.0)?,
            y: Axis::between(a.1, b.1)?,
        })
    }
}

/// Every value of the type is a box in range, and a made box is the one that
/// was asked for.
pub fn boxes_stand()
    ensures { BoxesStand }
{}

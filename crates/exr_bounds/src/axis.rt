ghost use Rattle.std.specs.Prelude.{◌≡◌, true, pos, ◌+ℤ◌};
ghost use Rattle.layout.specs.Boxes.{axis, axis_good, last_of};

use exr_error::refusal::Refusal;

/// How far a place may be from 0 on its axis.
const LIMIT: i32 = 1073741822;

/// The places of a box on one axis: the least, and how many there are. There
/// is at least one, and all are in range.
#[derive(Clone, Copy, PartialEq, Eq)]
pub(crate) struct Axis {
    pub(crate) least: i32,
    pub(crate) side: u32,
    ghost good: { axis_good least side ≡ true },
}

impl Axis {
    ghost use Rattle.exr_bounds.specs.Axes.{axis_seen, make_axis};
    ghost use Rattle.exr_bounds.specs.Bounds.{spanning};

    /// The axis from a place on, or 11 if it has no place or one out of range.
    pub(crate) fn new(least: i32, side: usize) -> Result<Self, Refusal>
        ensures { axis_seen result ≡ make_axis (least, side) }
    {
        // `as` from u32 to usize here and below: std has no From for the pair; a side that is in range fits
        let begins = (-LIMIT..=LIMIT).contains(&least);
        if begins && 0 < side && side - 1 <= least.abs_diff(LIMIT) as usize {
            Ok(Axis {
                least,
                side: side as u32,
            })
        } else {
            Err(Refusal::BoxOutOfRange)
        }
    }

    /// The axis from one of two places to the other, in either order, or 11.
    pub(crate) fn between(a: i32, b: i32) -> Result<Self, Refusal>
        ensures { axis_seen result ≡ make_axis (axis a b) }
    {
        Axis::new(a.min(b), a.abs_diff(b) as usize + 1)
    }

    /// The axis moved by a distance, or 11 where it would leave the range.
    pub(crate) fn moved(self, by: i32) -> Result<Self, Refusal>
        ensures { axis_seen result ≡ make_axis (self.least +ℤ by, self.side) }
    {
        let least = self.least.checked_add(by).ok_or(Refusal::BoxOutOfRange)?;
        Axis::new(least, self.side as usize)
    }

    /// The greatest place.
    pub(crate) fn last(self) -> i32
        ensures { result ≡ last_of self.least self.side }
    {
        // it fits, by the invariant: a TryFrom would answer a failure that cannot come
        self.least + (self.side - 1) as i32
    }

    /// The place behind the greatest.
    pub(crate) fn end(self) -> i32
        ensures { result ≡ last_of self.least self.side +ℤ pos 1 }
    {
        self.last() + 1
    }

    /// Whether each place of the other axis is a place of this one.
    pub(crate) fn spans(self, other: Self) -> bool
        ensures { result ≡ spanning self.least (last_of self.least self.side) other.least (last_of other.least other.side) }
    {
        self.least <= other.least && other.last() <= self.last()
    }
}

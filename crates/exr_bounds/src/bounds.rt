use crate::axis::Axis;

/// A rectangle of places in the plane of integers. On each axis it has a least
/// and a greatest place, −1073741822 to 1073741822. It is made only by `new`
/// and its like and by `read`, which ask 11.
#[derive(Clone, Copy, PartialEq, Eq)]
pub struct IntegerBounds {
    pub(crate) x: Axis,
    pub(crate) y: Axis,
}

//! Which way to round.
ghost use Rattle.exr_math.specs.Logarithms.{RoundedLog};
ghost use Rattle.exr_math.specs.Rounding.{Divided, CanDivide, Floor, Ceiling};

use crate::logarithms::{ceil_log_2, floor_log_2};
use exr_number::Number;

/// Round up or down in specific calculations.
#[derive(Clone, Copy, PartialEq, Eq)]
pub enum RoundingMode {
    /// Round down.
    Down,

    /// Round up.
    Up,
}

impl RoundingMode {
    /// The logarithm of `number` to the base 2, rounded down or up. Answers 0 where `number` is 0.
    pub const fn log2(self, number: u32) -> u32
        ensures { RoundedLog self number result }
    {
        match self {
            RoundingMode::Down => floor_log_2(number),
            RoundingMode::Up => ceil_log_2(number),
        }
    }

    /// The quotient of `dividend` by `divisor`, rounded down or up, for every two numbers that have
    /// one. Answers `None` exactly where `dividend` is below 0 or `divisor` is below 1.
    pub fn divide<T: Number>(self, dividend: T, divisor: T) -> Option<T>
        ensures { Divided T.value self (T.value dividend) (T.value divisor) result }
    {
        if dividend < T::from(0u8) || divisor < T::from(1u8) {
            return None;
        }
        match self {
            RoundingMode::Down => divide_down(dividend, divisor),
            RoundingMode::Up => divide_up(dividend, divisor),
        }
    }
}

// The quotient rounded down: with these numbers, rounding toward zero is rounding down.
fn divide_down<T: Number>(dividend: T, divisor: T) -> Option<T>
    requires { CanDivide (T.value dividend) (T.value divisor) }
    ensures { Floor T.value (T.value dividend) (T.value divisor) result }
{
    dividend.checked_div(divisor)
}

// The quotient rounded up: 0 for 0, else one more than that of the number before, rounded down. No
// sum on the way is above `dividend`.
fn divide_up<T: Number>(dividend: T, divisor: T) -> Option<T>
    requires { CanDivide (T.value dividend) (T.value divisor) }
    ensures { Ceiling T.value (T.value dividend) (T.value divisor) result }
{
    let one = T::from(1u8);
    if dividend < one {
        return Some(dividend);
    }
    divide_down(dividend.checked_sub(one)?, divisor)?.checked_add(one)
}

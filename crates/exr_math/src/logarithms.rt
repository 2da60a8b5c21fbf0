//! Logarithms to the base 2.
ghost use Rattle.exr_math.specs.Logarithms.{FloorLog, CeilLog, Bits};

/// The logarithm of `number` to the base 2, rounded down: the exponent of the greatest power of two
/// that is not above `number`. Answers 0 where `number` is 0.
pub const fn floor_log_2(number: u32) -> u32
    ensures { FloorLog number result }
{
    // `checked_ilog2().unwrap_or(0)` cannot stand here, since `unwrap_or` is no `const fn`.
    if number == 0 { 0 } else { number.ilog2() }
}

/// The logarithm of `number` to the base 2, rounded up: the least exponent whose power of two is at
/// least `number`. That is 0 where `number` is 0.
pub const fn ceil_log_2(number: u32) -> u32
    ensures { CeilLog number result }
{
    bit_length(number.saturating_sub(1))
}

// How many bits `number` has without zeros in front: the least exponent whose power of two is above
// it.
const fn bit_length(number: u32) -> u32
    ensures { Bits number result }
{
    u32::BITS - number.leading_zeros()
}

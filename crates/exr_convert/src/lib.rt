//! Conversions between integer types: the same number, or none where the other
//! type does not have it.
#![tactic(auto)]

// One function for each pair of types that the ported crate names: each is one call of std's
// `TryFrom`, whose law holds for every pair, and a generic function here would only repeat it.

ghost use Rattle.exr_convert.specs.Conversions.{Nonnegative, Fitting, FittingI32};

/// The same number as a usize, or none if it is negative.
pub fn i32_to_usize(signed: i32) -> Option<usize>
    ensures { Nonnegative signed result }
{
    usize::try_from(signed).ok()
}

/// The same number as a u32, or none if it is 2^32 or more.
pub fn usize_to_u32(value: usize) -> Option<u32>
    ensures { Fitting 32 value result }
{
    u32::try_from(value).ok()
}

/// The same number as a u16, or none if it is 2^16 or more.
pub fn usize_to_u16(value: usize) -> Option<u16>
    ensures { Fitting 16 value result }
{
    u16::try_from(value).ok()
}

/// The same number as a usize, which has 64 bits here: never none.
pub fn u64_to_usize(value: u64) -> Option<usize>
    ensures { Fitting 64 value result }
{
    usize::try_from(value).ok()
}

/// The same number as a usize: never none.
pub fn u32_to_usize(word: u32) -> Option<usize>
    ensures { Fitting 64 word result }
{
    usize::try_from(word).ok()
}

/// The same number as an i32, or none if it is 2^31 or more.
pub fn usize_to_i32(value: usize) -> Option<i32>
    ensures { FittingI32 value result }
{
    i32::try_from(value).ok()
}

/// The same number as a u64: never none.
pub fn usize_to_u64(value: usize) -> Option<u64>
    ensures { Fitting 64 value result }
{
    u64::try_from(value).ok()
}

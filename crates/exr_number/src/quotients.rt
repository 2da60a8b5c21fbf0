//! What rounding toward zero means.
ghost use Rattle.std.specs.Prelude.{◌≡◌, int_div};
ghost use Rattle.exr_number.specs.Quotients.{TowardZero};

/// That the quotient by which `checked_div` is stated is rounded toward zero, in words of
/// multiplication alone. The answer is always 0.
pub fn quotients_are_truncated() -> u8
    ensures truncated { TowardZero int_div }
    ensures answer { result ≡ 0 }
{
    0u8
}

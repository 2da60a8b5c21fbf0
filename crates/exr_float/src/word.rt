ghost use Rattle.std.specs.Prelude.{◌≡◌, ℕ, ◌<◌, refl};
ghost use Rattle.layout.specs.Floats.{single, double};
ghost use Rattle.layout.specs.Numbers.{range};
ghost use Rattle.exr_float.specs.Patterns.{single_kept, double_kept};

use exr_data::data::Data;
use std::num::{
    f32_from_bits_with_nan, f32_to_bits_with_nan, f64_from_bits_with_nan, f64_to_bits_with_nan,
};

/// A word whose numbers are the bits of floats.
pub trait FloatWord: Data {
    /// The floats of its width.
    type Float: Data;

    // what the layout keeps of bits: all that is not a number is one
    ghost keeps: { ℕ → ℕ };

    /// The bits of a float, which reads back from them.
    fn of_float(x: Self::Float) -> Self
        ensures bits { result ≡ Self.value (Self.Float.bits x) }
        ensures back { Self.Float.value (Self.bits result) ≡ x };

    /// The float that has these bits.
    fn to_float(self) -> Self::Float
        ensures { result ≡ Self.Float.value (Self.bits self) };

    /// Bits as the layout keeps them.
    fn one_nan(self) -> Self
        ensures { Self.bits result ≡ keeps (Self.bits self) };

    // each number of its width is a word
    ghost each: { (n : ℕ) → n < range Self.BYTE_SIZE → Self.bits (Self.value n) ≡ n };

    ghost same_size: { Self.Float.BYTE_SIZE ≡ Self.BYTE_SIZE };

    // read as a float and written again, bits are as the layout keeps them
    ghost kept: { (n : ℕ) → n < range Self.BYTE_SIZE → Self.Float.bits (Self.Float.value n) ≡ keeps n };
}

// An impl for each width: its float and its not-a-number are its own, and a macro may not write impls.
impl FloatWord for u32 {
    type Float = f32;

    ghost keeps = { single };

    ghost each = { λ n h. refl };

    ghost same_size = { refl };

    ghost kept = { single_kept };

    fn of_float(x: f32) -> u32 {
        f32_to_bits_with_nan(x)
    }

    fn to_float(self) -> f32 {
        f32_from_bits_with_nan(self)
    }

    // Without its sign, what is not a number is above infinity.
    fn one_nan(self) -> u32 {
        if 0x7F80_0000 < self % 0x8000_0000 {
            0x7FC0_0000
        } else {
            self
        }
    }
}

impl FloatWord for u64 {
    type Float = f64;

    ghost keeps = { double };

    ghost each = { λ n h. refl };

    ghost same_size = { refl };

    ghost kept = { double_kept };

    fn of_float(x: f64) -> u64 {
        f64_to_bits_with_nan(x)
    }

    fn to_float(self) -> f64 {
        f64_from_bits_with_nan(self)
    }

    // Without its sign, what is not a number is above infinity.
    fn one_nan(self) -> u64 {
        if 0x7FF0_0000_0000_0000 < self % 0x8000_0000_0000_0000 {
            0x7FF8_0000_0000_0000
        } else {
            self
        }
    }
}

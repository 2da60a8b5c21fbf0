ghost use Rattle.std.specs.Prelude.{◌^◌, ◌<◌, T, FitsSigned};
ghost use Rattle.std.specs.Float.Ieee as Ieee;
ghost use Rattle.std.specs.Float.{binary32};
ghost use Rattle.std.specs.Int.{w32};
ghost use Rattle.std.proofs.Common.{of_z, to_z, rules, lit≤};
ghost use Rattle.std.specs.Float.Ieee.Bits.{to_bits-lt, of_bits-to_bits};

use crate::data::Data;
use std::num::{f32_from_bits_with_nan, f32_to_bits_with_nan};

impl Data for u32 {
    ghost fits = { λ x. x < 2 ^ 32 };

    ghost bits = { λ x. x };

    ghost value = { λ n. n };

    const BYTE_SIZE: usize = 4;

    ghost BYTE_SIZE = { 4 };

    ghost narrow = { lit≤ tt };

    ghost below = { Prim.search rules };

    ghost back = { Prim.search rules };

    fn to_word(self) -> u64 {
        u64::from(self)
    }

    fn from_word(word: u64) -> u32 {
        // a remainder always fits: a TryFrom would answer a failure that cannot come
        (word % 0x1_0000_0000) as u32
    }
}

impl Data for i32 {
    ghost fits = { FitsSigned w32 };

    ghost bits = { of_z w32 };

    ghost value = { to_z w32 };

    const BYTE_SIZE: usize = u32::BYTE_SIZE;

    ghost BYTE_SIZE = { 4 };

    ghost narrow = { lit≤ tt };

    ghost below = { Prim.search rules };

    ghost back = { Prim.search rules };

    fn to_word(self) -> u64 {
        self.cast_unsigned().to_word()
    }

    fn from_word(word: u64) -> i32 {
        u32::from_word(word).cast_signed()
    }
}

// All that is not a number is one value, with the bits 7FC00000.
impl Data for f32 {
    ghost fits = { λ x. T (Ieee.fits binary32 x) };

    ghost bits = { Ieee.to_bits binary32 };

    ghost value = { Ieee.of_bits binary32 };

    const BYTE_SIZE: usize = u32::BYTE_SIZE;

    ghost BYTE_SIZE = { 4 };

    ghost narrow = { lit≤ tt };

    ghost below = { to_bits-lt binary32 };

    ghost back = { of_bits-to_bits binary32 };

    fn to_word(self) -> u64 {
        f32_to_bits_with_nan(self).to_word()
    }

    fn from_word(word: u64) -> f32 {
        f32_from_bits_with_nan(u32::from_word(word))
    }
}

ghost use Rattle.std.specs.Prelude.{◌^◌, ◌<◌, T, FitsSigned};
ghost use Rattle.std.specs.Float.Ieee as Ieee;
ghost use Rattle.std.specs.Float.{binary64};
ghost use Rattle.std.specs.Int.{w64};
ghost use Rattle.std.proofs.Common.{of_z, to_z, rules, lit≤};
ghost use Rattle.std.specs.Float.Ieee.Bits.{to_bits-lt, of_bits-to_bits};

use crate::data::Data;
use std::num::{f64_from_bits_with_nan, f64_to_bits_with_nan};

impl Data for u64 {
    ghost fits = { λ x. x < 2 ^ 64 };

    ghost bits = { λ x. x };

    ghost value = { λ n. n };

    const BYTE_SIZE: usize = 8;

    ghost BYTE_SIZE = { 8 };

    ghost narrow = { lit≤ tt };

    ghost below = { Prim.search rules };

    ghost back = { Prim.search rules };

    fn to_word(self) -> u64 {
        self
    }

    fn from_word(word: u64) -> u64 {
        word
    }
}

impl Data for i64 {
    ghost fits = { FitsSigned w64 };

    ghost bits = { of_z w64 };

    ghost value = { to_z w64 };

    const BYTE_SIZE: usize = u64::BYTE_SIZE;

    ghost BYTE_SIZE = { 8 };

    ghost narrow = { lit≤ tt };

    ghost below = { Prim.search rules };

    ghost back = { Prim.search rules };

    fn to_word(self) -> u64 {
        self.cast_unsigned().to_word()
    }

    fn from_word(word: u64) -> i64 {
        u64::from_word(word).cast_signed()
    }
}

// All that is not a number is one value, with the bits 7FF8000000000000.
impl Data for f64 {
    ghost fits = { λ x. T (Ieee.fits binary64 x) };

    ghost bits = { Ieee.to_bits binary64 };

    ghost value = { Ieee.of_bits binary64 };

    const BYTE_SIZE: usize = u64::BYTE_SIZE;

    ghost BYTE_SIZE = { 8 };

    ghost narrow = { lit≤ tt };

    ghost below = { to_bits-lt binary64 };

    ghost back = { of_bits-to_bits binary64 };

    fn to_word(self) -> u64 {
        f64_to_bits_with_nan(self).to_word()
    }

    fn from_word(word: u64) -> f64 {
        f64_from_bits_with_nan(u64::from_word(word))
    }
}

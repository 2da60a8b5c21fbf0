ghost use Rattle.std.specs.Prelude.{◌^◌, ◌<◌, FitsSigned};
ghost use Rattle.std.specs.Int.{w16};
ghost use Rattle.std.proofs.Common.{of_z, to_z, rules, lit≤};

use crate::data::Data;

impl Data for u16 {
    ghost fits = { λ x. x < 2 ^ 16 };

    ghost bits = { λ x. x };

    ghost value = { λ n. n };

    const BYTE_SIZE: usize = 2;

    ghost BYTE_SIZE = { 2 };

    ghost narrow = { lit≤ tt };

    ghost below = { Prim.search rules };

    ghost back = { Prim.search rules };

    fn to_word(self) -> u64 {
        u64::from(self)
    }

    fn from_word(word: u64) -> u16 {
        // a remainder always fits: a TryFrom would answer a failure that cannot come
        (word % 0x1_0000) as u16
    }
}

impl Data for i16 {
    ghost fits = { FitsSigned w16 };

    ghost bits = { of_z w16 };

    ghost value = { to_z w16 };

    const BYTE_SIZE: usize = u16::BYTE_SIZE;

    ghost BYTE_SIZE = { 2 };

    ghost narrow = { lit≤ tt };

    ghost below = { Prim.search rules };

    ghost back = { Prim.search rules };

    fn to_word(self) -> u64 {
        self.cast_unsigned().to_word()
    }

    fn from_word(word: u64) -> i16 {
        u16::from_word(word).cast_signed()
    }
}

/// A half float, by its bits. All of them are kept, also of what is not a
/// number.
#[derive(Clone, Copy, PartialEq, Eq)]
pub struct F16 {
    pub bits: u16,
}

impl Data for F16 {
    ghost fits = { λ x. x.bits < 2 ^ 16 };

    ghost bits = { λ x. x.bits };

    ghost value = { λ n. record { bits = n } };

    const BYTE_SIZE: usize = u16::BYTE_SIZE;

    ghost BYTE_SIZE = { 2 };

    ghost narrow = { lit≤ tt };

    ghost below = { Prim.search rules };

    ghost back = { Prim.search rules };

    fn to_word(self) -> u64 {
        self.bits.to_word()
    }

    fn from_word(word: u64) -> F16 {
        F16 {
            bits: u16::from_word(word),
        }
    }
}

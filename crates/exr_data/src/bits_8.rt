ghost use Rattle.std.specs.Prelude.{◌^◌, ◌<◌, FitsSigned};
ghost use Rattle.std.specs.Int.{w8};
ghost use Rattle.std.proofs.Common.{of_z, to_z, rules, lit≤};

use crate::data::Data;

impl Data for u8 {
    ghost fits = { λ x. x < 2 ^ 8 };

    ghost bits = { λ x. x };

    ghost value = { λ n. n };

    const BYTE_SIZE: usize = 1;

    ghost BYTE_SIZE = { 1 };

    ghost narrow = { lit≤ tt };

    ghost below = { Prim.search rules };

    ghost back = { Prim.search rules };

    fn to_word(self) -> u64 {
        u64::from(self)
    }

    fn from_word(word: u64) -> u8 {
        // a remainder always fits: a TryFrom would answer a failure that cannot come
        (word % 0x100) as u8
    }
}

impl Data for i8 {
    ghost fits = { FitsSigned w8 };

    ghost bits = { of_z w8 };

    ghost value = { to_z w8 };

    const BYTE_SIZE: usize = u8::BYTE_SIZE;

    ghost BYTE_SIZE = { 1 };

    ghost narrow = { lit≤ tt };

    ghost below = { Prim.search rules };

    ghost back = { Prim.search rules };

    fn to_word(self) -> u64 {
        self.cast_unsigned().to_word()
    }

    fn from_word(word: u64) -> i8 {
        u8::from_word(word).cast_signed()
    }
}

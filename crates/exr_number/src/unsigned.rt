//! The numbers of `usize`.
ghost use Rattle.std.specs.Prelude.{pos};
ghost use Rattle.exr_number.specs.Numbers.{from_to};
ghost use Rattle.std.proofs.Common.{rules};

use crate::Number;

impl Number for usize {
    ghost value = { λ x. pos x };

    ghost range = { from_to (pos 0) (pos 18446744073709551615) };

    ghost same = { Prim.search rules };

    ghost zero = { Prim.search rules };

    ghost order = { Prim.search rules };

    ghost from_u8 = { Prim.search rules };

    fn checked_add(self, other: usize) -> Option<usize> {
        usize::checked_add(self, other)
    }

    fn checked_sub(self, other: usize) -> Option<usize> {
        usize::checked_sub(self, other)
    }

    fn checked_mul(self, other: usize) -> Option<usize> {
        usize::checked_mul(self, other)
    }

    fn checked_div(self, other: usize) -> Option<usize> {
        usize::checked_div(self, other)
    }
}

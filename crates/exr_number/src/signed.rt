//! The numbers of `i32`.
ghost use Rattle.std.specs.Prelude.{pos, negsuc};
ghost use Rattle.exr_number.specs.Numbers.{from_to};
ghost use Rattle.std.proofs.Common.{rules};

use crate::Number;

// No member has a default: a default is one term for all types, and each type has its own range and
// operations. A macro may not write the impls.
impl Number for i32 {
    ghost value = { λ x. x };

    ghost range = { from_to (negsuc 2147483647) (pos 2147483647) };

    ghost same = { Prim.search rules };

    ghost zero = { Prim.search rules };

    ghost order = { Prim.search rules };

    ghost from_u8 = { Prim.search rules };

    fn checked_add(self, other: i32) -> Option<i32> {
        i32::checked_add(self, other)
    }

    fn checked_sub(self, other: i32) -> Option<i32> {
        i32::checked_sub(self, other)
    }

    fn checked_mul(self, other: i32) -> Option<i32> {
        i32::checked_mul(self, other)
    }

    fn checked_div(self, other: i32) -> Option<i32> {
        i32::checked_div(self, other)
    }
}

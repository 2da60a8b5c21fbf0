//! Whole numbers of any of the types that vectors and divisions are made of.
#![tactic(auto)]

ghost use Rattle.std.specs.Prelude.{◌≡◌, ◌<◌, ℕ, ℤ, pos, ◌+ℤ◌, ◌-ℤ◌, ◌*ℤ◌, int_div};
ghost use Rattle.std.specs.Ordering.{int_cmp};
ghost use Rattle.exr_number.specs.Numbers.{Range, Within, Answers, QuotientFits};

pub mod quotients;
pub mod signed;
pub mod unsigned;

// Under the traits of `num_traits` a generic function has to require that a number fits its type;
// here an operation says it, so that `divide` requires nothing.
/// A type of whole numbers, which are compared as such. Each number of a `u8` is one of them.
///
/// No operation wraps: where its result is not a number of the type, the answer is `None`.
pub trait Number: Copy + Ord + From<u8> {
    // the number that a value stands for
    ghost value: { Self → ℤ };

    // the least and the greatest of these numbers
    ghost range: { Range };

    /// The sum, or `None` exactly where it lies outside the range.
    fn checked_add(self, other: Self) -> Option<Self>
        ensures { Answers value (Within range) (value self +ℤ value other) result };

    /// The difference, or `None` exactly where it lies outside the range. `self` lies in the range.
    fn checked_sub(self, other: Self) -> Option<Self>
        ensures answer { Answers value (Within range) (value self -ℤ value other) result }
        ensures within { Within range (value self) };

    /// The product, or `None` exactly where it lies outside the range.
    fn checked_mul(self, other: Self) -> Option<Self>
        ensures { Answers value (Within range) (value self *ℤ value other) result };

    /// The quotient rounded toward zero, or `None` exactly where `other` is 0 or the quotient lies
    /// outside the range. `self` lies in the range.
    fn checked_div(self, other: Self) -> Option<Self>
        ensures answer { Answers value (QuotientFits range (value other)) (int_div (value self) (value other)) result }
        ensures within { Within range (value self) };

    // no two values stand for one number
    ghost same: { (x y : Self) → value x ≡ value y → x ≡ y };

    // 0 is one of these numbers
    ghost zero: { Within range (pos 0) };

    // values are compared as their numbers
    ghost order: { (x y : Self) → Self.cmp x y ≡ int_cmp (value x) (value y) };

    // a `u8` becomes the number that it is, which lies in the range
    ghost from_u8: { (n : ℕ) (x : Self) → n < 256 → Self.from_gives n x → (value x ≡ pos n) × Within range (value x) };
}

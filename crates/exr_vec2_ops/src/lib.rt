//! The operators on vectors, coordinate by coordinate, as functions that answer
//! none where a coordinate does not fit.
#![tactic(auto)]

ghost use Rattle.std.specs.Prelude.{neg_ℤ, int_div, ◌+ℤ◌, ◌-ℤ◌, ◌*ℤ◌};
ghost use Rattle.exr_number.specs.Numbers.{Within, QuotientFits};
ghost use Rattle.exr_vec2.specs.Vectors.{Combined, Coordinates};
ghost use Rattle.exr_vec2_ops.specs.Each.{Each};

use exr_number::Number;
use exr_vec2::Vec2;

// Functions, since an `impl Add` whose output is an `Option` would give a `+` that does not chain.

/// The sum of the two vectors, or `None` exactly where a coordinate of it does not fit the type.
pub fn add<T: Number>(a: Vec2<T>, b: Vec2<T>) -> Option<Vec2<T>>
    ensures { Combined T.value (λ _. Within T.range) ◌+ℤ◌ a b result }
{
    each(a, b, T::checked_add)
}

/// The difference of the two vectors, or `None` exactly where a coordinate of it does not fit the
/// type.
pub fn sub<T: Number>(a: Vec2<T>, b: Vec2<T>) -> Option<Vec2<T>>
    ensures { Combined T.value (λ _. Within T.range) ◌-ℤ◌ a b result }
{
    each(a, b, T::checked_sub)
}

/// The product of the first components and that of the second components, or `None` exactly where
/// one of them does not fit the type.
pub fn mul<T: Number>(a: Vec2<T>, b: Vec2<T>) -> Option<Vec2<T>>
    ensures { Combined T.value (λ _. Within T.range) ◌*ℤ◌ a b result }
{
    each(a, b, T::checked_mul)
}

/// The quotient of the first components and that of the second components, each rounded toward
/// zero, or `None` exactly where a coordinate of the second is 0 or a quotient does not fit the type.
pub fn div<T: Number>(a: Vec2<T>, b: Vec2<T>) -> Option<Vec2<T>>
    ensures { Combined T.value (QuotientFits T.range) int_div a b result }
{
    each(a, b, T::checked_div)
}

/// The vector that points the other way, or `None` exactly where a coordinate of it does not fit
/// the type.
pub fn neg<T: Number>(a: Vec2<T>) -> Option<Vec2<T>>
    ensures { Coordinates T.value (Within T.range) (neg_ℤ (T.value a.0)) (Within T.range) (neg_ℤ (T.value a.1)) result }
{
    let zero = T::from(0u8);
    sub(Vec2(zero, zero), a)
}

// What `f` answers at the first components and at the second components, or `None` where it does.
fn each<T: Number, F: Fn(T, T) -> Option<T>>(a: Vec2<T>, b: Vec2<T>, f: F) -> Option<Vec2<T>>
    requires { F.IsAlwaysCallable f }
    ensures { Each (F.post f) a b result }
{
    Some(Vec2(f(a.0, b.0)?, f(a.1, b.1)?))
}

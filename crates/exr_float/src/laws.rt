ghost use Rattle.std.specs.Prelude.{◌≡◌, ℕ};
ghost use Rattle.layout.specs.Floats.{single, double};
ghost use Rattle.exr_float.specs.Elements.{pair_by, triple_by};
ghost use Rattle.exr_float.specs.Floats.{FloatsAreTheirBits, OneByTheOther, single_of, float_of, wide_of, double_of};

use crate::bits::{F32Bits, F64Bits};
use crate::values::OfFloats;
use crate::word::FloatWord;
use exr_vec2::Vec2;

/// Bits that are read as a float and written again are the layout's: the
/// same, or the one pattern of all that is not a number; and the layout's
/// bits are the same float.
pub fn floats_are_their_bits()
    ensures { FloatsAreTheirBits }
{}

/// A float has the bits that the standard gives it, and bits are its float;
/// those of a pair and a triple go element by element. A word keeps of bits
/// what the layout does.
pub fn bits_are_the_standards()
    ensures single { OneByTheOther single_of float_of ⟦<F32Bits as OfFloats>⟧.bits_of ⟦<F32Bits as OfFloats>⟧.floats_of }
    ensures wide { OneByTheOther wide_of double_of ⟦<F64Bits as OfFloats>⟧.bits_of ⟦<F64Bits as OfFloats>⟧.floats_of }
    ensures pair { OneByTheOther (pair_by single_of) (pair_by float_of) ⟦<Vec2<F32Bits> as OfFloats>⟧.bits_of ⟦<Vec2<F32Bits> as OfFloats>⟧.floats_of }
    ensures triple { OneByTheOther (triple_by single_of) (triple_by float_of) ⟦<(F32Bits, F32Bits, F32Bits) as OfFloats>⟧.bits_of ⟦<(F32Bits, F32Bits, F32Bits) as OfFloats>⟧.floats_of }
    ensures single_kept { (n : ℕ) → ⟦<u32 as FloatWord>⟧.keeps n ≡ single n }
    ensures double_kept { (n : ℕ) → ⟦<u64 as FloatWord>⟧.keeps n ≡ double n }
{}

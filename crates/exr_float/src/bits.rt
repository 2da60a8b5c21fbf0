ghost use Rattle.std.specs.Prelude.{◌≡◌};

use crate::values::OfFloats;
use crate::word::FloatWord;
use exr_data::data::Data;

// No ghost field says that bits are kept: with any word as bits, theorems and
// clauses speak of plain numbers, and need no proof beside each.
/// A float by its bits. All that is not a number is one value, with the bits
/// 7FC00000, or of 64 bits 7FF8000000000000. Equal are those with equal bits:
/// 0.0 and -0.0 differ, and what is not a number equals itself.
#[derive(Clone, Copy, PartialEq, Eq)]
pub struct FloatBits<W> {
    bits: W,
}

/// A float of 32 bits, by its bits.
pub type F32Bits = FloatBits<u32>;

/// A float of 64 bits, by its bits.
pub type F64Bits = FloatBits<u64>;

impl<W: FloatWord> OfFloats for FloatBits<W> {
    type Floats = W::Float;

    ghost bits_of = { λ x. record { bits = W.value (W.Float.bits x) } };

    ghost floats_of = { λ b. W.Float.value (W.bits b.bits) };

    fn from_floats(x: W::Float) -> FloatBits<W> {
        FloatBits {
            bits: W::of_float(x),
        }
    }

    fn to_floats(self) -> W::Float {
        self.bits.to_float()
    }
}

impl<W: FloatWord> FloatBits<W> {
    /// The bits as they are read: all patterns that are not a number become
    /// the one that their float has.
    pub fn from_bits(bits: W) -> Self
        ensures { W.bits result.bits ≡ W.keeps (W.bits bits) }
    {
        FloatBits {
            bits: bits.one_nan(),
        }
    }

    /// The bits as they are written.
    pub fn to_bits(self) -> W
        ensures { W.bits result ≡ W.keeps (W.bits self.bits) }
    {
        self.bits.one_nan()
    }
}

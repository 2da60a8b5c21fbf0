ghost use Rattle.layout.specs.Kinds.{fields_of, float, double, v2f, v3f};
ghost use Rattle.exr_float.specs.Elements.{alone, both, three};
ghost use Rattle.exr_float.specs.Floats.{written};
ghost use Rattle.exr_float_io.specs.Back.{FloatsReadBack};
ghost use Rattle.exr_float_io.specs.Layouts.{LaidOut, doubles_written};

use crate::fields::FloatFields;
use exr_float::bits::{F32Bits, F64Bits};
use exr_vec2::Vec2;

/// The bytes written for floats are read back as the numbers that were
/// written, whatever stands behind them, and these are the same floats.
pub fn floats_read_back()
    ensures { FloatsReadBack }
{}

/// A float, a pair and a triple have the fields of the layout and, in their
/// order, the numbers of their floats.
pub fn floats_are_fields()
    ensures single { LaidOut (fields_of float) alone written ⟦<F32Bits as FloatFields>⟧.parts ⟦<F32Bits as FloatFields>⟧.numbers ⟦<F32Bits as FloatFields>⟧.written }
    ensures wide { LaidOut (fields_of double) alone doubles_written ⟦<F64Bits as FloatFields>⟧.parts ⟦<F64Bits as FloatFields>⟧.numbers ⟦<F64Bits as FloatFields>⟧.written }
    ensures pair { LaidOut (fields_of v2f) both written ⟦<Vec2<F32Bits> as FloatFields>⟧.parts ⟦<Vec2<F32Bits> as FloatFields>⟧.numbers ⟦<Vec2<F32Bits> as FloatFields>⟧.written }
    ensures triple { LaidOut (fields_of v3f) three written ⟦<(F32Bits, F32Bits, F32Bits) as FloatFields>⟧.parts ⟦<(F32Bits, F32Bits, F32Bits) as FloatFields>⟧.numbers ⟦<(F32Bits, F32Bits, F32Bits) as FloatFields>⟧.written }
{}

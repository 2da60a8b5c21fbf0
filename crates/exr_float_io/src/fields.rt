ghost use Rattle.std.specs.Prelude.{◌≡◌, ℕ, List, [], ◌∷◌, ◌++◌, length};
ghost use Rattle.std.proofs.Common.{rules};
ghost use Rattle.std.proofs.lemmas.Grind.{common_steps};
ghost use Rattle.layout.specs.Fields.{Field, any, fields, field_bytes};
ghost use Rattle.exr_sink.specs.Gifts.{GaveAll};
ghost use Rattle.exr_value.specs.Seen.{seen_by};

use exr_error::refusal::Refusal;
use exr_error::stop::Full;
use exr_float::bits::FloatBits;
use exr_float::word::FloatWord;
use exr_io::number::write_le;
use exr_sink::sink::Sink;
use exr_value::fields::Field;
use exr_vec2::Vec2;

/// A value made of floats, which lie one directly after the other in a file.
pub trait FloatFields: Copy {
    // its fields in the layout
    ghost parts: { List Field };

    // the bits of its floats, as they are held and as they are written
    ghost numbers: { Self → List ℕ };

    ghost written: { Self → List ℕ };

    /// The value at the front of some bytes, and the bytes behind it; 6 if
    /// the bytes of one of its floats are not there.
    fn read(bytes: &[u8]) -> Result<(Self, &[u8]), Refusal>
        ensures { seen_by numbers result ≡ fields parts bytes.now };

    /// Gives the bytes of its floats to a sink, in their order.
    fn write<S: Sink>(self, sink: &mut S) -> Result<(), Full>
        ensures takes { GaveAll (S.means sink.old) (field_bytes parts (written self)) result (S.means sink.new) }
        ensures kept { S.keeps sink.old sink.new };

    // a number for each field
    ghost long: { (x : Self) → length (written x) ≡ length parts };
}

impl<W: FloatWord + Field> FloatFields for FloatBits<W> {
    ghost parts = { record { width = W.BYTE_SIZE; question = 6; admits = any; keeps = W.keeps } ∷ [] };

    ghost numbers = { λ x. W.bits x.bits ∷ [] };

    ghost written = { λ x. W.keeps (W.bits x.bits) ∷ [] };

    ghost long = { Prim.search rules };

    fn read(bytes: &[u8]) -> Result<(FloatBits<W>, &[u8]), Refusal> {
        let (bits, rest) = W::read(bytes)?;
        Ok((FloatBits::from_bits(bits), rest))
    }

    fn write<S: Sink>(self, sink: &mut S) -> Result<(), Full> {
        write_le(sink, self.to_bits())
    }
}

// A pair, a vector and a triple have an impl each, since no bound covers a struct and a tuple; the
// last two are put together from pairs.
/// One value, and another behind it.
impl<A: FloatFields, B: FloatFields> FloatFields for (A, B) {
    ghost parts = { A.parts ++ B.parts };

    ghost numbers = { λ p. A.numbers p.0 ++ B.numbers p.1 };

    ghost written = { λ p. A.written p.0 ++ B.written p.1 };

    ghost long = { λ p. Prim.search (rules, common_steps, A.long p.0, B.long p.1) };

    fn read(bytes: &[u8]) -> Result<((A, B), &[u8]), Refusal> {
        let (x, rest) = A::read(bytes)?;
        let (y, rest) = B::read(rest)?;
        Ok(((x, y), rest))
    }

    fn write<S: Sink>(self, sink: &mut S) -> Result<(), Full> {
        self.0.write(sink)?;
        self.1.write(sink)
    }
}

impl<T: FloatFields> FloatFields for Vec2<T> {
    ghost parts = { T.parts ++ T.parts };

    ghost numbers = { λ p. T.numbers p.0 ++ T.numbers p.1 };

    ghost written = { λ p. T.written p.0 ++ T.written p.1 };

    ghost long = { λ p. Prim.search (rules, common_steps, T.long p.0, T.long p.1) };

    fn read(bytes: &[u8]) -> Result<(Vec2<T>, &[u8]), Refusal> {
        let ((x, y), rest) = <(T, T)>::read(bytes)?;
        Ok((Vec2(x, y), rest))
    }

    fn write<S: Sink>(self, sink: &mut S) -> Result<(), Full> {
        (self.0, self.1).write(sink)
    }
}

impl<T: FloatFields> FloatFields for (T, T, T) {
    ghost parts = { T.parts ++ (T.parts ++ T.parts) };

    ghost numbers = { λ t. T.numbers t.0 ++ (T.numbers t.1 ++ T.numbers t.2) };

    ghost written = { λ t. T.written t.0 ++ (T.written t.1 ++ T.written t.2) };

    ghost long = { λ t. Prim.search (rules, common_steps, T.long t.0, T.long t.1, T.long t.2) };

    fn read(bytes: &[u8]) -> Result<((T, T, T), &[u8]), Refusal> {
        let ((x, (y, z)), rest) = <(T, (T, T))>::read(bytes)?;
        Ok(((x, y, z), rest))
    }

    fn write<S: Sink>(self, sink: &mut S) -> Result<(), Full> {
        let (x, y, z) = self;
        (x, (y, z)).write(sink)
    }
}

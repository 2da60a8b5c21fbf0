ghost use Rattle.std.specs.Prelude.{◌≡◌, ℕ, Bool, List, [], ◌∷◌, IfOk, Result};
ghost use Rattle.layout.specs.Fields.{Field, field_bytes, fields, size};
ghost use Rattle.exr_error.specs.declared.refusal.Refusal.{Refusal as RefusalOf};
ghost use Rattle.exr_value.specs.Seen.{seen_by};
ghost use Rattle.exr_sink.specs.Gifts.{GaveAll};
ghost use Rattle.exr_code.specs.Codes.{Decodes, one_code};

use exr_data::data::Data;
use exr_error::refusal::Refusal;
use exr_error::stop::Full;
use exr_io::number::write_le;
use exr_sink::sink::Sink;
use exr_value::fields::Field;

/// A value from a list, saved as a code of one byte: it becomes its code, and
/// a code becomes it or the refusal of a code that is not listed.
pub trait Coded: Copy + TryFrom<u8, Error = Refusal> + Into<u8> {
    // its kind's fields in the layout
    ghost kind: { List Field };

    // the code of each case
    ghost code_of: { Self → ℕ };

    // which codes are listed, and the number of the refusal of the others
    ghost listed: { ℕ → Bool };

    ghost question: { ℕ };

    // a case without what a file does not hold of it
    ghost Bare: { Self → Type 0 };

    /// How many bytes it has in a file: 1.
    final fn byte_size() -> usize
        ensures { result ≡ size kind }
    {
        u8::BYTE_SIZE
    }

    /// The case whose code is at the front of some bytes, and the bytes behind
    /// it; 6 if there is none, and the refusal of a code that is not listed.
    final fn read(bytes: &[u8]) -> Result<(Self, &[u8]), Refusal>
        ensures case { seen_by (λ e. code_of e ∷ []) result ≡ fields kind bytes.now }
        ensures bare { IfOk result (λ p. Bare p.0) }
    {
        let (code, rest) = u8::read(bytes)?;
        Ok((Self::try_from(code)?, rest))
    }

    /// Gives its code to a sink.
    final fn write<W: Sink>(self, sink: &mut W) -> Result<(), Full>
        ensures takes { GaveAll (W.means sink.old) (field_bytes kind (code_of self ∷ [])) result (W.means sink.new) }
        ensures kept { W.keeps sink.old sink.new }
    {
        let code: u8 = self.into();
        write_le(sink, code)
    }

    // a case becomes its code
    ghost to_code: { (x : Self) (n : ℕ) → Self.converts x n → n ≡ code_of x };

    // a code becomes its case, or the refusal
    ghost of_code: { (n : ℕ) (r : Result Self RefusalOf) → Self.try_from_gives n r → Decodes code_of listed question Bare n r };

    // the layout has one field for it: a byte, of which is asked whether it is listed
    ghost one: { kind ≡ one_code question listed };
}

ghost use Rattle.std.specs.Prelude.{◌≡◌};
ghost use Rattle.exr_value.specs.Seen.{seen_by, number_at};

use exr_data::data::Data;
use exr_error::refusal::Refusal;

/// A number that is a field of a value. Each one is matched as its bytes by
/// name and the rest, which goes to the reader of the next field.
pub trait Field: Data {
    /// The number at the front of some bytes, lowest byte first, and the bytes
    /// behind it; 6 if its bytes are not all there.
    fn read(bytes: &[u8]) -> Result<(Self, &[u8]), Refusal>
        ensures { seen_by Self.bits result ≡ number_at Self.BYTE_SIZE bytes.now };
}

impl Field for u8 {
    fn read(bytes: &[u8]) -> Result<(u8, &[u8]), Refusal> {
        match bytes {
            [a, rest @ ..] => Ok((*a, rest)),
            _ => Err(Refusal::MissingBytes),
        }
    }
}

impl Field for u32 {
    fn read(bytes: &[u8]) -> Result<(u32, &[u8]), Refusal> {
        match bytes {
            [a, b, c, d, rest @ ..] => Ok((u32::from_le_bytes([*a, *b, *c, *d]), rest)),
            _ => Err(Refusal::MissingBytes),
        }
    }
}

impl Field for i32 {
    fn read(bytes: &[u8]) -> Result<(i32, &[u8]), Refusal> {
        let (bits, rest) = u32::read(bytes)?;
        Ok((bits.cast_signed(), rest))
    }
}

impl Field for u64 {
    fn read(bytes: &[u8]) -> Result<(u64, &[u8]), Refusal> {
        match bytes {
            [a, b, c, d, e, f, g, h, rest @ ..] => {
                let number = u64::from_le_bytes([*a, *b, *c, *d, *e, *f, *g, *h]);
                Ok((number, rest))
            }
            _ => Err(Refusal::MissingBytes),
        }
    }
}

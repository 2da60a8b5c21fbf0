ghost use Rattle.std.specs.Prelude.{IfOk};
ghost use Rattle.layout.specs.Numbers.{low_first};
ghost use Rattle.exr_sink.specs.Gifts.{GaveAll};
ghost use Rattle.exr_io.specs.Reads.{ReadLe};

use exr_data::data::Data;
use exr_error::stop::{Full, Stop};
use exr_read::read::read_exact;
use exr_sink::sink::Sink;
use exr_sink::write::write_all;
use exr_source::source::Source;

/// Gives the bytes of a number to a sink, the lowest first.
pub fn write_le<D: Data, W: Sink>(sink: &mut W, number: D) -> Result<(), Full>
    ensures takes { GaveAll (W.means sink.old) (low_first D.BYTE_SIZE (D.bits number)) result (W.means sink.new) }
    ensures kept { W.keeps sink.old sink.new }
    ensures valid { D.fits number }
{
    let bytes = number.to_word().to_le_bytes();
    write_all(sink, &bytes[..D::BYTE_SIZE])
}

/// Takes the bytes of a number from a source, or answers the stop that came
/// first.
pub fn read_le<D: Data, S: Source>(source: &mut S) -> Result<D, Stop>
    ensures gives { ReadLe D.BYTE_SIZE D.value (S.means source.old) result (S.means source.new) }
    ensures kept { S.keeps source.old source.new }
    ensures valid { IfOk result D.fits }
{
    // An array's length is a constant or a parameter, not a trait's constant.
    // The checker: a parameter "cannot be used in a computed constant", so not
    // [0u8; D::BYTE_SIZE].
    let mut bytes = [0u8; 8];
    read_exact(source, &mut bytes[..D::BYTE_SIZE])?;
    Ok(D::from_word(u64::from_le_bytes(bytes)))
}

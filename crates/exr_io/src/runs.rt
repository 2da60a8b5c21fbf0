ghost use Rattle.std.specs.List.{flat_map};
ghost use Rattle.layout.specs.Numbers.{low_first};
ghost use Rattle.exr_io.specs.Runs.{ReadRun, RunsReadBack};
ghost use Rattle.exr_sink.specs.Gifts.{GaveAll};

use crate::number::{read_le, write_le};
use exr_data::data::Data;
use exr_error::stop::{Full, Stop};
use exr_sink::sink::Sink;
use exr_source::source::Source;

/// Gives a sink the bytes of each number, one directly after the other.
pub fn write_slice_le<D: Data, W: Sink>(sink: &mut W, slice: &[D]) -> Result<(), Full>
    ensures takes { GaveAll (W.means sink.old) (flat_map (λ x. low_first D.BYTE_SIZE (D.bits x)) slice.now) result (W.means sink.new) }
    ensures kept { W.keeps sink.old sink.new }
{
    for x in slice {
        write_le(sink, *x)?;
    }
    Ok(())
}

/// Takes as many numbers as the slice has from a source. Where the source
/// stops first, the numbers that came whole stand at the slice's start, the
/// rest of it stays, and all bytes to come have been given.
pub fn read_slice_le<D: Data, S: Source>(source: &mut S, slice: &mut [D]) -> Result<(), Stop>
    ensures gives { ReadRun D.BYTE_SIZE D.value (S.means source.old) slice.old result (S.means source.new) slice.new }
    ensures kept { S.keeps source.old source.new }
{
    for x in slice {
        *x = read_le(source)?;
    }
    Ok(())
}

/// The bytes of numbers read back as these numbers.
pub fn runs_read_back<D: Data>()
    ensures { RunsReadBack D.BYTE_SIZE D.fits D.bits D.value }
{}

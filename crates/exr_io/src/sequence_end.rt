ghost use Rattle.std.specs.Prelude.{◌≡◌, [], ◌∷◌};
ghost use Rattle.layout.specs.Streams.{source_of};
ghost use Rattle.exr_sink.specs.Gifts.{GaveAll};
ghost use Rattle.exr_peek.specs.Peeks.{peek_means, is_next, sans_next};

use crate::number::write_le;
use exr_data::data::Data;
use exr_error::stop::{Full, Stop};
use exr_peek::peek_read::PeekRead;
use exr_sink::sink::Sink;
use exr_source::source::Source;

/// How many bytes the end of a sequence has.
pub fn byte_size() -> usize
    ensures { result ≡ 1 }
{
    u8::BYTE_SIZE
}

/// Gives a sink the byte 00, which ends a sequence.
pub fn write<W: Sink>(sink: &mut W) -> Result<(), Full>
    ensures takes { GaveAll (W.means sink.old) (0 ∷ []) result (W.means sink.new) }
    ensures kept { W.keeps sink.old sink.new }
{
    write_le(sink, 0u8)
}

/// Whether the next byte is 00, which is then taken; another byte stays to
/// come. Where none is to come, answers the stop.
pub fn has_come<S: Source>(source: &mut PeekRead<S>) -> Result<bool, Stop>
    ensures answer { result ≡ is_next (peek_means S.means source.old).bytes (peek_means S.means source.old).stop 0 }
    ensures left { peek_means S.means source.new ≡ source_of (sans_next (peek_means S.means source.old).bytes 0) (peek_means S.means source.old).stop }
    ensures kept { S.keeps source.old.inner source.new.inner }
{
    source.skip_if_eq(0)
}

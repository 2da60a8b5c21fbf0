ghost use Rattle.std.specs.Prelude.{◌≡◌, ◌<◌, min, length, take, MatchResult};
ghost use Rattle.exr_sink.specs.Gifts.{full};

use exr_error::stop::Full;

/// The part of some bytes that a sink with so much room takes: as many as
/// there are and as it has room for. Where it has none, the stop, unless no
/// byte is given.
pub(crate) fn part_for<'b>(bytes: &'b [u8], room: usize, stop: u8) -> Result<&'b [u8], Full>
    ensures part { MatchResult result (λ part. part.now ≡ take (min (length bytes.now) room) bytes.now) (λ e. e ≡ full stop) }
    ensures some { MatchResult result (λ part. 0 < length bytes.now → 0 < room) (λ e. (0 < length bytes.now) × (room ≡ 0)) }
{
    if room == 0 && !bytes.is_empty() {
        return Err(Full { number: stop });
    }
    Ok(&bytes[..bytes.len().min(room)])
}

ghost use Rattle.exr_sink.specs.Gifts.{GaveAll};

use crate::sink::Sink;
use exr_error::stop::Full;

/// Gives a sink all of some bytes; each gift is of the part not yet taken.
/// Where the sink stops first, it has taken the first ones, as many as it
/// could.
pub fn write_all<W: Sink>(sink: &mut W, bytes: &[u8]) -> Result<(), Full>
    ensures takes { GaveAll (W.means sink.old) bytes.now result (W.means sink.new) }
    ensures kept { W.keeps sink.old sink.new }
{
    let mut rest = bytes;
    while !rest.is_empty() {
        let k = sink.write(rest)?;
        rest = &rest[k..];
    }
    Ok(())
}

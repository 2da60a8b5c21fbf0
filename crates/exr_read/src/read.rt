ghost use Rattle.std.specs.Prelude.{◌≡◌};
ghost use Rattle.layout.specs.Streams.{after};
ghost use Rattle.exr_read.specs.Fills.{Filled, next_of, short_fault};

use exr_error::fault::Fault;
use exr_error::refusal::Refusal;
use exr_error::stop::Stop;
use exr_source::source::Source;

/// A source stopped before all bytes that were wanted had come: its stop, and
/// how many had come.
#[derive(Clone, Copy, PartialEq, Eq)]
pub struct Short {
    pub stop: Stop,
    pub got: usize,
}

/// A call that takes one thing and is stopped tells 18 or 19, with the bytes
/// that came.
impl From<Short> for Fault {
    ghost from_gives = { λ s f. f ≡ short_fault s };

    fn from(short: Short) -> Fault {
        Refusal::from(short.stop).at(0, short.got)
    }
}

/// A call that needs no count is stopped by the stop alone.
impl From<Short> for Stop {
    ghost from_gives = { λ s e. e ≡ s.stop };

    fn from(short: Short) -> Stop {
        short.stop
    }
}

/// Fills the buffer from its start; each request is for the part still
/// unfilled. Where the source stops first, answers the stop and how many
/// bytes came: these stand at the buffer's start, and the rest of it stays.
pub fn read_exact<S: Source>(source: &mut S, buffer: &mut [u8]) -> Result<(), Short>
    ensures fills { Filled (S.means source.old) buffer.old result (S.means source.new) buffer.new }
    ensures kept { S.keeps source.old source.new }
{
    // a loop with a count, since the buffer is lent from its filled count on and a stop tells the count
    let mut filled = 0;
    while filled < buffer.len() {
        filled += source
            .read(&mut buffer[filled..])
            .map_err(|stop| Short { stop, got: filled })?;
    }
    Ok(())
}

/// The next byte, which is then no longer to come, or the stop.
pub fn read_byte<S: Source>(source: &mut S) -> Result<u8, Stop>
    ensures answer { result ≡ next_of (S.means source.old).bytes (S.means source.old).stop }
    ensures left { S.means source.new ≡ after 1 (S.means source.old) }
    ensures kept { S.keeps source.old source.new }
{
    let mut one = [0u8; 1];
    read_exact(source, &mut one)?;
    Ok(one[0])
}

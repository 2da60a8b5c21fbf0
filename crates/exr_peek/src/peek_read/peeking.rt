ghost use Rattle.std.specs.Prelude.{◌≡◌, None};
ghost use Rattle.std.specs.Result.{result_ok};
ghost use Rattle.layout.specs.Streams.{source_of};
ghost use Rattle.exr_read.specs.Fills.{next_of};
ghost use Rattle.exr_source.specs.Requests.{Requested};
ghost use Rattle.exr_peek.specs.Peeks.{Alone, peek_means, peek_proper, PeekKept, peek_steady, is_next, sans_next};

use crate::peek_read::PeekRead;
use exr_error::stop::Stop;
use exr_read::read::read_byte;
use exr_source::source::Source;

impl<S: Source> Source for PeekRead<S> {
    ghost means = { peek_means S.means };

    ghost proper = { peek_proper S.means S.proper };

    ghost keeps = { PeekKept S.means S.keeps };

    ghost steady = { peek_steady S.means S.steady };

    /// A kept byte is given alone: nothing is asked below.
    fn read(&mut self, buffer: &mut [u8]) -> Result<usize, Stop>
        ensures gives { Requested (peek_means S.means self.old) buffer.old result (peek_means S.means self.new) buffer.new }
        ensures kept { PeekKept S.means S.keeps self.old self.new }
        ensures alone { Alone self.old buffer.old result self.new }
    {
        if buffer.is_empty() {
            return Ok(0);
        }
        let Some(byte) = self.peeked.take() else {
            return self.inner.read(buffer);
        };
        buffer[0] = byte;
        Ok(1)
    }
}

impl<S: Source> PeekRead<S> {
    /// Over a source, with nothing kept: it means what the source means.
    pub fn new(inner: S) -> Self
        ensures inner { result.inner ≡ inner }
        ensures peeked { result.peeked ≡ None }
    {
        PeekRead {
            inner,
            peeked: None,
        }
    }

    // Three contracts speak of the bytes and the stop of one meaning; each says another thing of them, so
    // one definition of the two would only hide them.
    /// The byte that comes next, which is kept and still to come, or the stop.
    /// The meaning is unchanged.
    pub fn peek_u8(&mut self) -> Result<u8, Stop>
        ensures answer { result ≡ next_of (peek_means S.means self.old).bytes (peek_means S.means self.old).stop }
        ensures peeked { self.new.peeked ≡ result_ok result }
        ensures same { peek_means S.means self.new ≡ peek_means S.means self.old }
        ensures kept { S.keeps self.old.inner self.new.inner }
    {
        if let Some(byte) = self.peeked {
            return Ok(byte);
        }
        let byte = read_byte(&mut self.inner)?;
        self.peeked = Some(byte);
        Ok(byte)
    }

    /// Takes the byte that comes next if it equals the given one, and tells
    /// whether it does; another byte stays to come. Where none is to come,
    /// answers the stop.
    pub fn skip_if_eq(&mut self, value: u8) -> Result<bool, Stop>
        ensures answer { result ≡ is_next (peek_means S.means self.old).bytes (peek_means S.means self.old).stop value }
        ensures left { peek_means S.means self.new ≡ source_of (sans_next (peek_means S.means self.old).bytes value) (peek_means S.means self.old).stop }
        ensures kept { S.keeps self.old.inner self.new.inner }
    {
        let byte = self.peek_u8()?;
        if byte != value {
            return Ok(false);
        }
        self.peeked = None;
        Ok(true)
    }
}

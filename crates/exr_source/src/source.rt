ghost use Rattle.layout.specs.Streams.{SourceMeaning, Proper};
ghost use Rattle.exr_source.specs.Keeping.{Steady};
ghost use Rattle.exr_source.specs.Requests.{Requested};

use exr_error::stop::Stop;

/// Gives bytes until it stops.
pub trait Source {
    // its meaning: the bytes still to come, and the stop behind them
    ghost means: { Self → SourceMeaning };

    // what of it stays, whatever it gives;
    // a clause `kept` of each reader, and no ghost field, since it relates the state before with the state after
    ghost keeps: { Self → Self → Type 0 };

    /// A request for as many bytes as the buffer has. Answers 0 to a buffer
    /// of no bytes. While bytes are to come, lays the first k of them at the
    /// buffer's start, from 1 to as many as fit and are to come; these are no
    /// longer to come, and the rest of the buffer stays. After them answers
    /// the stop, the same each time, and nothing changes.
    fn read(&mut self, buffer: &mut [u8]) -> Result<usize, Stop>
        ensures gives { Requested (means self.old) buffer.old result (means self.new) buffer.new }
        ensures kept { keeps self.old self.new };

    // its bytes are below 256, a device number is from 1 to 255
    ghost proper: { (s : Self) → Proper (means s) };

    // each has what it keeps to itself, and it goes on from one call to the next
    ghost steady: { Steady keeps };
}

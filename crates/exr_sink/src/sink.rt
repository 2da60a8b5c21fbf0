ghost use Rattle.layout.specs.Streams.{SinkMeaning, Stopping};
ghost use Rattle.exr_source.specs.Keeping.{Steady};
ghost use Rattle.exr_sink.specs.Gifts.{Gave};

use exr_error::stop::Full;

/// Takes bytes until it is full.
pub trait Sink {
    // its meaning: the bytes taken, how many more it takes, and its stop
    ghost means: { Self → SinkMeaning };

    // what of it stays, whatever it is given;
    // a clause `kept` of each writer, and no ghost field, since it relates the state before with the state after
    ghost keeps: { Self → Self → Type 0 };

    /// Gives it bytes. Answers 0 to no bytes. If it takes more, it takes the
    /// first k of them, from 1 to as many as there are and as it takes.
    /// Otherwise it answers its stop, and nothing changes.
    fn write(&mut self, bytes: &[u8]) -> Result<usize, Full>
        ensures takes { Gave (means self.old) bytes.now result (means self.new) }
        ensures kept { keeps self.old self.new };

    // its stop is from 1 to 255
    ghost proper: { (s : Self) → Stopping (means s) };

    // each has what it keeps to itself, and it goes on from one call to the next
    ghost steady: { Steady keeps };
}

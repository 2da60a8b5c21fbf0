ghost use Rattle.std.specs.Prelude.{◌≡◌};
ghost use Rattle.layout.specs.Streams.{chained};
ghost use Rattle.exr_source.specs.Properly.{chained_proper};

use crate::source::Source;
use exr_error::stop::Stop;

/// Two sources, the second behind the end of the first. If the first stops
/// with a device number, the second is never asked.
#[derive(Drop)]
pub struct Chain<F, G> {
    first: F,
    second: G,
}

impl<F, G> Chain<F, G> {
    /// The one source and then the other.
    pub fn new(first: F, second: G) -> Self
        ensures first { result.first ≡ first }
        ensures second { result.second ≡ second }
    {
        Chain { first, second }
    }
}

impl<F: Source, G: Source> Source for Chain<F, G> {
    ghost means = { λ s. chained (F.means s.first) (G.means s.second) };

    ghost proper = { λ s. chained_proper (F.means s.first) (G.means s.second) (F.proper s.first) (G.proper s.second) };

    ghost keeps = { λ s t. F.keeps s.first t.first × G.keeps s.second t.second };

    ghost steady = { record { same = λ s. (F.steady.same s.first, G.steady.same s.second); on = λ s t u h k. (F.steady.on s.first t.first u.first h.0 k.0, G.steady.on s.second t.second u.second h.1 k.1) } };

    fn read(&mut self, buffer: &mut [u8]) -> Result<usize, Stop> {
        match self.first.read(buffer) {
            Err(Stop::End) => self.second.read(buffer),
            answer => answer,
        }
    }
}

ghost use Rattle.std.specs.Prelude.{◌≡◌, true, None, refl};
ghost use Rattle.layout.specs.Numbers.{all_bytes};
ghost use Rattle.layout.specs.Streams.{source_of};

use crate::source::Source;
use exr_error::stop::Stop;

/// Bytes held for reading. Those that have not been given yet are to come,
/// and then the end.
#[derive(Drop)]
pub struct HeldBytes<'a> {
    rest: &'a [u8],
    ghost below: { all_bytes rest.now ≡ true },
}

impl<'a> HeldBytes<'a> {
    /// All of some bytes.
    pub fn new(bytes: &'a [u8]) -> Self
        ensures { result.rest.now ≡ bytes.now }
    {
        HeldBytes { rest: bytes }
    }
}

impl<'a> Source for HeldBytes<'a> {
    ghost means = { λ s. source_of s.rest.now None };

    ghost proper = { λ s. record { bytes = s.below; number = refl } };

    ghost keeps = { λ _ _. Unit {0} };

    ghost steady = { record { same = λ _. tt; on = λ _ _ _ _ _. tt } };

    fn read(&mut self, buffer: &mut [u8]) -> Result<usize, Stop> {
        if buffer.is_empty() {
            return Ok(0);
        }
        if self.rest.is_empty() {
            return Err(Stop::End);
        }
        let k = buffer.len().min(self.rest.len());
        let (given, rest) = self.rest.split_at(k);
        buffer[..k].copy_from_slice(given);
        self.rest = rest;
        Ok(k)
    }
}

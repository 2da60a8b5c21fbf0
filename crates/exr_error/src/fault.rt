ghost use Rattle.std.specs.Prelude.{◌≡◌};

use crate::refusal::Refusal;

/// What a refused call tells: the refusal, how many attributes the call had
/// finished before, and how many bytes came from its source or went to its
/// sink.
#[derive(Clone, Copy, PartialEq, Eq)]
pub struct Fault {
    pub refusal: Refusal,
    pub ordinal: usize,
    pub bytes: usize,
}

impl Refusal {
    /// This refusal, with the attribute's ordinal and the bytes given so far.
    pub fn at(self, ordinal: usize, bytes: usize) -> Fault
        ensures refusal { result.refusal ≡ self }
        ensures ordinal { result.ordinal ≡ ordinal }
        ensures bytes { result.bytes ≡ bytes }
    {
        Fault {
            refusal: self,
            ordinal,
            bytes,
        }
    }
}

ghost use Rattle.std.specs.Prelude.{◌≡◌, ◌-◌, ◌≤◌, [], length};
ghost use Rattle.std.proofs.Common.{lit≤};
ghost use Rattle.layout.specs.Streams.{sink_of};

use crate::part::part_for;
use crate::sink::Sink;
use arrayvec::ArrayVec;
use exr_error::stop::Full;

/// How many bytes a block takes.
pub const BLOCK_SIZE: usize = 4096;

/// A block of 4,096 bytes inside the sink. It stops with 2.
#[derive(Drop)]
pub struct Block {
    bytes: ArrayVec<u8, BLOCK_SIZE>,
    ghost within: { length bytes.items ≤ 4096 },
}

impl Block {
    /// With nothing taken.
    pub fn new() -> Self
        ensures { result.bytes.items ≡ [] }
    {
        Block {
            bytes: ArrayVec::new(),
        }
    }

    /// The bytes that it has taken.
    pub fn taken(&self) -> &[u8]
        ensures { result.now ≡ self.now.bytes.items }
    {
        self.bytes.as_slice()
    }
}

impl Sink for Block {
    ghost means = { λ s. sink_of s.bytes.items (4096 - length s.bytes.items) 2 };

    ghost proper = { λ _. record { least = lit≤ tt; most = lit≤ tt } };

    ghost keeps = { λ _ _. Unit {0} };

    ghost steady = { record { same = λ _. tt; on = λ _ _ _ _ _. tt } };

    fn write(&mut self, bytes: &[u8]) -> Result<usize, Full> {
        let part = part_for(bytes, self.bytes.remaining_capacity(), 2)?;
        // it fits: the part has no more bytes than there is room for
        self.bytes.try_extend_from_slice(part).unwrap();
        Ok(part.len())
    }
}

/// Any block has taken at most 4,096 bytes, whatever was done with it. The body
/// does nothing.
pub fn blocks_are_bounded(block: &Block)
    ensures { length block.now.bytes.items ≤ 4096 }
{}

ghost use Rattle.std.specs.Prelude.{◌≡◌, ◌≤◌, length};

pub mod filling;

// A buffer with a count beside it, by a rule of the project: the memory is lent, and its owner finds
// in it what was written.
/// A lent buffer, written from its start. It takes as many bytes as it has,
/// stays as it was behind the bytes taken, and stops with 1.
#[derive(Drop)]
pub struct LentBuffer<'a> {
    buffer: &'a mut [u8],
    at: usize,
    ghost within: { at ≤ length buffer.now },
}

impl<'a> LentBuffer<'a> {
    /// Over a buffer, with nothing taken.
    pub fn new(buffer: &'a mut [u8]) -> Self
        ensures buffer { result.buffer ≡ buffer.entry }
        ensures at { result.at ≡ 0 }
    {
        LentBuffer { buffer, at: 0 }
    }

    /// How many bytes it has taken.
    pub fn count(&self) -> usize
        ensures { result ≡ self.now.at }
    {
        self.at
    }
}

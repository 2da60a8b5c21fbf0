ghost use Rattle.std.specs.Prelude.{◌≡◌, ◌+◌, ◌<◌, ◌≤◌};
ghost use Rattle.layout.specs.TimeCodes.{bit, digits, field};

/// A word of 32 bits, read by bit places.
#[derive(Clone, Copy)]
pub(crate) struct Word(pub(crate) u32);

impl Word {
    /// The number in some bits of the word, from a place on.
    pub(crate) fn bits(self, from: usize, width: usize) -> u8
        requires { (from < 32) × (width ≤ 4) }
        ensures { (result ≡ field from width self.0) × (result < 16) }
    {
        // a remainder below 16 always fits: a TryFrom would answer a failure that cannot come
        ((self.0 >> from) % (1 << width)) as u8
    }

    /// One bit of the word.
    pub(crate) fn flag(self, at: usize) -> bool
        requires { at < 32 }
        ensures { result ≡ bit at self.0 }
    {
        (self.0 >> at) % 2 == 1
    }

    /// A number of two digits: its units in four bits, its tens in the bits above.
    /// Units above 9 count as they are.
    pub(crate) fn number(self, from: usize, tens: usize) -> u8
        requires { (from + 4 < 32) × (tens ≤ 3) }
        ensures { result ≡ digits from tens self.0 }
    {
        10 * self.bits(from + 4, tens) + self.bits(from, 4)
    }
}

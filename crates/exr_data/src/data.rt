ghost use Rattle.std.specs.Prelude.{◌≡◌, ℕ, ◌%◌, ◌<◌, ◌≤◌};
ghost use Rattle.layout.specs.Numbers.{range};

// No member or law has a default: a default is one term for all types, and each
// type has its own bits. A macro may not write the impls.
/// A number of `BYTE_SIZE` bytes, which reads back from them.
pub trait Data: Copy {
    // which values there are; a clause where it is needed and no law, since in a law a number is any number,
    // also one too large for its type
    ghost fits: { Self → Type 0 };

    // a value by its bits, and the value that bits are
    ghost bits: { Self → ℕ };

    ghost value: { ℕ → Self };

    /// How many bytes it has in a file, 8 at most.
    const BYTE_SIZE: usize;

    ghost BYTE_SIZE: { ℕ };

    /// Its bits, as a number.
    fn to_word(self) -> u64
        ensures word { result ≡ bits self }
        ensures valid { fits self };

    /// The value of bits; what is above its width does not count.
    fn from_word(word: u64) -> Self
        ensures value { result ≡ value (word % range BYTE_SIZE) }
        ensures valid { fits result };

    ghost narrow: { BYTE_SIZE ≤ 8 };

    ghost below: { (x : Self) → fits x → bits x < range BYTE_SIZE };

    ghost back: { (x : Self) → fits x → value (bits x) ≡ x };
}

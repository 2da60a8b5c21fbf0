/// Whether smaller versions of an image are stored beside it.
#[derive(Clone, Copy, PartialEq, Eq)]
pub enum LevelMode {
    /// The image alone.
    Singular,
    /// Smaller versions of about the same proportions.
    MipMap,
    /// Smaller versions of all proportions.
    RipMap,
}

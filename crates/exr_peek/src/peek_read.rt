ghost use Rattle.std.specs.Prelude.{◌≡◌, true};
ghost use Rattle.exr_peek.specs.Kept.{kept_below};

pub mod peeking;

/// A source of which one byte may be looked at before it is taken. The kept
/// byte is still to come; a stop is never kept.
#[derive(Drop)]
pub struct PeekRead<S> {
    inner: S,
    peeked: Option<u8>,
    ghost below: { kept_below peeked ≡ true },
}

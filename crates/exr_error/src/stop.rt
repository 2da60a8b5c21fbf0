// An Option has this shape too, but this is an error, and its cases have names.
/// Why a source gives no more bytes: it is at its end, or its device failed
/// with a number from 1 to 255.
#[derive(Clone, Copy, PartialEq, Eq)]
pub enum Stop {
    End,
    Device(u8),
}

// A number and no enum: it is the sink's, and any of the 255 may come.
/// A sink takes no more bytes: its stop, a number from 1 to 255.
#[derive(Clone, Copy, PartialEq, Eq)]
pub struct Full {
    pub number: u8,
}

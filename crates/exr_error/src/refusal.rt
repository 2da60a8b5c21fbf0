ghost use Rattle.std.specs.Prelude.{◌≡◌};
ghost use Rattle.exr_error.specs.Numbering.{Numbered};
ghost use Rattle.exr_error.specs.Refusals.{number_of, layer_of, error_of, stop_of, ended, sink_full};

use crate::stop::{Full, Stop};

/// A question that was answered no. The cases stand in the order of their
/// numbers, from 1 to 30.
#[derive(Clone, Copy, PartialEq, Eq)]
pub enum Refusal {
    /// 1: a name has 1 to 255 bytes, none zero.
    InvalidName,
    /// 2: a kind has 1 to 255 bytes, none zero.
    InvalidKind,
    /// 3: the kind of a Custom value is none of the 24.
    KnownKind,
    /// 4: the size of a value is not negative.
    NegativeSize,
    /// 5: a value has at most 40,960 bytes.
    TooLarge,
    /// 6: the bytes of the field are there.
    MissingBytes,
    /// 7: the code is listed.
    UnknownCode,
    /// 8: the compression code is listed.
    UnknownCompression,
    /// 9: the channel has a name of 1 to 255 bytes, none zero.
    InvalidChannelName,
    /// 10: the length or sampling is in its range, the text has its place.
    InvalidLength,
    /// 11: the box is in range, with sides of at least 1.
    BoxOutOfRange,
    /// 12: the sides fit, and a preview has just its pixels.
    InvalidSides,
    /// 13: the numbers of the time code are in their ranges.
    InvalidTimeCode,
    /// 14: the name is new in this load.
    RepeatedName,
    /// 15: there are at most 64 attributes.
    TooManyAttributes,
    /// 16: the saved size is at most 49,152 bytes.
    HeaderTooLarge,
    /// 17: the header holds the name.
    AbsentName,
    /// 18: a byte is to come; the source is at its end.
    SourceEnded,
    /// 19: a byte is to come; the source's device failed with this number.
    SourceFailed(u8),
    /// 20: the sink takes every byte; it stopped with this number.
    SinkFull(u8),
    /// 21: the channel list has a channel.
    NoChannels,
    /// 22: the samplings are not 0.
    ZeroSampling,
    /// 23: the samplings are 1 where sampling is not allowed.
    SamplingNotAllowed,
    /// 24: the samplings divide the window's position.
    SamplingPosition,
    /// 25: the samplings divide the window's sides.
    SamplingSize,
    /// 26: the samplings are 1.
    SamplingNotSupported,
    /// 27: the channel's name is unlike the one before.
    RepeatedChannel,
    /// 28: the channel's name is not below the one before.
    ChannelOrder,
    /// 29: the sides of a tile are 1 to 1073741822.
    InvalidTileSize,
    /// 30: the string vector is not empty.
    EmptyTextVector,
}

/// Where a question belongs: to the source or sink, to the name, kind and
/// size of a record, to the fields of a value, or to the header's table.
#[derive(Clone, Copy, PartialEq, Eq)]
pub enum Layer {
    Device,
    Record,
    Value,
    Header,
}

/// The variant of the Rust crate's error that a refusal stands for.
#[derive(Clone, Copy, PartialEq, Eq)]
pub enum Error {
    NotSupported,
    Invalid,
    Io,
}

impl Refusal {
    // A method and no `From`: the rules tell a refusal by its number, under this name.
    /// The refusal's number, from 1 to 30.
    pub fn number(self) -> u8
        ensures { result ≡ number_of self }
    {
        match self {
            Refusal::InvalidName => 1,
            Refusal::InvalidKind => 2,
            Refusal::KnownKind => 3,
            Refusal::NegativeSize => 4,
            Refusal::TooLarge => 5,
            Refusal::MissingBytes => 6,
            Refusal::UnknownCode => 7,
            Refusal::UnknownCompression => 8,
            Refusal::InvalidChannelName => 9,
            Refusal::InvalidLength => 10,
            Refusal::BoxOutOfRange => 11,
            Refusal::InvalidSides => 12,
            Refusal::InvalidTimeCode => 13,
            Refusal::RepeatedName => 14,
            Refusal::TooManyAttributes => 15,
            Refusal::HeaderTooLarge => 16,
            Refusal::AbsentName => 17,
            Refusal::SourceEnded => 18,
            Refusal::SourceFailed(_) => 19,
            Refusal::SinkFull(_) => 20,
            Refusal::NoChannels => 21,
            Refusal::ZeroSampling => 22,
            Refusal::SamplingNotAllowed => 23,
            Refusal::SamplingPosition => 24,
            Refusal::SamplingSize => 25,
            Refusal::SamplingNotSupported => 26,
            Refusal::RepeatedChannel => 27,
            Refusal::ChannelOrder => 28,
            Refusal::InvalidTileSize => 29,
            Refusal::EmptyTextVector => 30,
        }
    }

    /// The layer that the question belongs to.
    pub fn layer(self) -> Layer
        ensures { result ≡ layer_of (number_of self) }
    {
        match self {
            Refusal::InvalidName
            | Refusal::InvalidKind
            | Refusal::KnownKind
            | Refusal::NegativeSize
            | Refusal::TooLarge => Layer::Record,
            Refusal::MissingBytes
            | Refusal::UnknownCode
            | Refusal::UnknownCompression
            | Refusal::InvalidChannelName
            | Refusal::InvalidLength
            | Refusal::BoxOutOfRange
            | Refusal::InvalidSides
            | Refusal::InvalidTimeCode
            | Refusal::NoChannels
            | Refusal::ZeroSampling
            | Refusal::SamplingNotAllowed
            | Refusal::SamplingPosition
            | Refusal::SamplingSize
            | Refusal::SamplingNotSupported
            | Refusal::RepeatedChannel
            | Refusal::ChannelOrder
            | Refusal::InvalidTileSize
            | Refusal::EmptyTextVector => Layer::Value,
            Refusal::RepeatedName
            | Refusal::TooManyAttributes
            | Refusal::HeaderTooLarge
            | Refusal::AbsentName => Layer::Header,
            Refusal::SourceEnded | Refusal::SourceFailed(_) | Refusal::SinkFull(_) => Layer::Device,
        }
    }

    /// The variant of the Rust crate's error.
    pub fn error(self) -> Error
        ensures { result ≡ error_of (number_of self) }
    {
        match self {
            Refusal::UnknownCompression | Refusal::SamplingNotSupported => Error::NotSupported,
            Refusal::SourceFailed(_) | Refusal::SinkFull(_) => Error::Io,
            _ => Error::Invalid,
        }
    }

    /// The stop number of the source or sink: with 19 and 20 only.
    pub fn stop(self) -> Option<u8>
        ensures { result ≡ stop_of self }
    {
        match self {
            Refusal::SourceFailed(stop) | Refusal::SinkFull(stop) => Some(stop),
            _ => None,
        }
    }
}

/// A source that stops is answered by 18 at its end, by 19 at a device number.
impl From<Stop> for Refusal {
    ghost from_gives = { λ s r. r ≡ ended s };

    fn from(stop: Stop) -> Refusal {
        match stop {
            Stop::End => Refusal::SourceEnded,
            Stop::Device(number) => Refusal::SourceFailed(number),
        }
    }
}

/// A sink that takes no more is answered by 20 with its stop number.
impl From<Full> for Refusal {
    ghost from_gives = { λ f r. r ≡ sink_full f };

    fn from(full: Full) -> Refusal {
        Refusal::SinkFull(full.number)
    }
}

/// How many refusals there are. In their order they have the numbers 1 to 30,
/// there is no other, and a stop is told with 19 and 20 alone.
pub fn refusal_count() -> u8
    ensures count { result ≡ 30 }
    ensures numbered { Numbered }
{
    30u8
}

ghost use Rattle.std.specs.Prelude.{◌≡◌, None, nat_le, refl};
ghost use Rattle.layout.specs.Kinds.{fields_of, compression};
ghost use Rattle.exr_code.specs.Codes.{Decodes, compression_number, level_of};

use crate::coded::Coded;
use exr_error::refusal::Refusal;

// No `==`: the level is a float, and floats are compared by their bits alone.
/// How the pixels of an image are compressed.
#[derive(Clone, Copy)]
pub enum Compression {
    /// Not at all.
    Uncompressed,
    /// By lengths of runs.
    RLE,
    /// By zlib, one line at a time.
    ZIP1,
    /// By zlib, sixteen lines at a time.
    ZIP16,
    /// By wavelets.
    PIZ,
    /// By zlib, with floats cut to 24 bits.
    PXR24,
    /// In blocks of four by four half floats.
    B44,
    /// In such blocks, with uniform ones shorter.
    B44A,
    /// By cosines, 32 lines at a time; a level may be given, which a file does
    /// not hold.
    DWAA(Option<f32>),
    /// By cosines, 256 lines at a time; a level may be given, which a file does
    /// not hold.
    DWAB(Option<f32>),
    /// By JPEG 2000 with high throughput, 256 lines at a time.
    HTJ2K256,
    /// By JPEG 2000 with high throughput, 32 lines at a time.
    HTJ2K32,
}

/// Its code.
impl From<Compression> for u8 {
    ghost from_gives = { λ e code. code ≡ compression_number e };

    fn from(compression: Compression) -> u8 {
        match compression {
            Compression::Uncompressed => 0,
            Compression::RLE => 1,
            Compression::ZIP1 => 2,
            Compression::ZIP16 => 3,
            Compression::PIZ => 4,
            Compression::PXR24 => 5,
            Compression::B44 => 6,
            Compression::B44A => 7,
            Compression::DWAA(_) => 8,
            Compression::DWAB(_) => 9,
            Compression::HTJ2K256 => 10,
            Compression::HTJ2K32 => 11,
        }
    }
}

/// The case of a code, without a level; a code that is not listed gets 8.
impl TryFrom<u8> for Compression {
    type Error = Refusal;

    ghost try_from_gives = { Decodes compression_number (λ code. nat_le code 11) 8 (λ e. level_of e ≡ None) };

    fn try_from(code: u8) -> Result<Compression, Refusal> {
        match code {
            0 => Ok(Compression::Uncompressed),
            1 => Ok(Compression::RLE),
            2 => Ok(Compression::ZIP1),
            3 => Ok(Compression::ZIP16),
            4 => Ok(Compression::PIZ),
            5 => Ok(Compression::PXR24),
            6 => Ok(Compression::B44),
            7 => Ok(Compression::B44A),
            8 => Ok(Compression::DWAA(None)),
            9 => Ok(Compression::DWAB(None)),
            10 => Ok(Compression::HTJ2K256),
            11 => Ok(Compression::HTJ2K32),
            _ => Err(Refusal::UnknownCompression),
        }
    }
}

impl Coded for Compression {
    ghost kind = { fields_of compression };

    ghost code_of = { compression_number };

    ghost listed = { λ code. nat_le code 11 };

    ghost question = { 8 };

    ghost Bare = { λ e. level_of e ≡ None };

    ghost to_code = { λ x n h. h };

    ghost of_code = { λ n r h. h };

    ghost one = { refl };
}

ghost use Rattle.std.specs.Prelude.{◌≡◌, ◌≤◌, [], ◌∷◌};
ghost use Rattle.layout.specs.Fields.{field_bytes, fields, size};
ghost use Rattle.layout.specs.Kinds.{fields_of, tiledesc};
ghost use Rattle.exr_value.specs.Seen.{seen_by};
ghost use Rattle.exr_sink.specs.Gifts.{GaveAll};
ghost use Rattle.exr_sink.specs.Writing.{Wrote};
ghost use Rattle.exr_tile.specs.Tiles.{mode_number, sides_ask, tile_numbers};

use crate::level_mode::LevelMode;
use crate::modes::Modes;
use exr_code::coded::Coded;
use exr_data::data::Data;
use exr_error::refusal::Refusal;
use exr_error::stop::Full;
use exr_io::runs::write_slice_le;
use exr_math::rounding::RoundingMode;
use exr_sink::sink::Sink;
use exr_value::fields::Field;
use exr_vec2::Vec2;

/// How an image is divided into tiles, and whether it has several levels.
#[derive(Clone, Copy, PartialEq, Eq)]
pub struct TileDescription {
    /// The size of each tile, the same on all levels.
    pub tile_size: Vec2<usize>,
    /// Whether smaller versions of the image are stored too.
    pub level_mode: LevelMode,
    /// Which way the sizes of levels are rounded.
    pub rounding_mode: RoundingMode,
}

// Two sides are read, asked and written here and in previews, each by one call of a generic function.
/// Gives two sides and two modes to a sink.
fn write_parts<W: Sink>(sink: &mut W, sides: Vec2<u32>, modes: Modes) -> Result<(), Full>
    ensures takes { GaveAll (W.means sink.old) (field_bytes (fields_of tiledesc) (sides.0 ∷ sides.1 ∷ mode_number modes.level modes.rounding ∷ [])) result (W.means sink.new) }
    ensures kept { W.keeps sink.old sink.new }
{
    write_slice_le(sink, &[sides.0, sides.1])?;
    modes.write(sink)
}

// A reader and a writer of its own: its sides are asked, and its modes share a byte.
impl TileDescription {
    /// How many bytes a tile description has in a file: 9.
    pub fn byte_size() -> usize
        ensures { result ≡ size (fields_of tiledesc) }
    {
        2 * u32::BYTE_SIZE + u8::BYTE_SIZE
    }

    /// The tile description at the front of some bytes: width, height and mode
    /// byte, and the bytes behind it. 6 if one is not there, 7 if the mode byte
    /// is not listed.
    pub fn read(bytes: &[u8]) -> Result<(TileDescription, &[u8]), Refusal>
        ensures { seen_by tile_numbers result ≡ fields (fields_of tiledesc) bytes.now }
    {
        let (width, rest) = u32::read(bytes)?;
        let (height, rest) = u32::read(rest)?;
        let (modes, rest) = Modes::read(rest)?;
        let found = TileDescription {
            // `as`: std has no From for u32 to usize
            tile_size: Vec2(width as usize, height as usize),
            level_mode: modes.level,
            rounding_mode: modes.rounding,
        };
        Ok((found, rest))
    }

    /// Gives its sides and its mode byte to a sink. A side above 4294967295
    /// gets 12 before a byte is given; a sink that takes no more gets 20.
    pub fn write<W: Sink>(&self, sink: &mut W) -> Result<(), Refusal>
        ensures takes { Wrote (sides_ask self.now.tile_size) (W.means sink.old) (field_bytes (fields_of tiledesc) (tile_numbers self.now)) result (W.means sink.new) }
        ensures kept { W.keeps sink.old sink.new }
    {
        let sides = Vec2::<u32>::try_from(self.tile_size).map_err(|_| Refusal::InvalidSides)?;
        let modes = Modes {
            level: self.level_mode,
            rounding: self.rounding_mode,
        };
        write_parts(sink, sides, modes)?;
        Ok(())
    }
}

ghost use Rattle.std.specs.Prelude.{◌≡◌, ◌^◌, ◌<◌};
ghost use Rattle.std.specs.Option.{SomeIff};
ghost use Rattle.layout.specs.Decode.{picture};
ghost use Rattle.exr_value.specs.Seen.{seen_by};
ghost use Rattle.exr_sink.specs.Gifts.{GaveAll};
ghost use Rattle.exr_sink.specs.Writing.{refused_by, Wrote};
ghost use Rattle.exr_preview.specs.Previews.{pixel_bytes, pixels_at, preview_ask, preview_bytes, preview_fits, preview_form, preview_size, sides_or, split};

use exr_data::data::Data;
use exr_error::refusal::Refusal;
use exr_error::stop::Full;
use exr_io::runs::write_slice_le;
use exr_sink::sink::Sink;
use exr_sink::write::write_all;
use exr_value::fields::Field;
use exr_vec2::Vec2;

// Sides beside the pixels that they measure: the fields are the ported crate's, and whether they fit is
// asked when they are written.
/// A small picture that resembles the image. Each pixel has four bytes: red,
/// green, blue and alpha.
#[derive(Clone, Copy, PartialEq, Eq)]
pub struct Preview<'a> {
    /// Width and height.
    pub size: Vec2<usize>,
    /// The pixels, row after row from the top: 4 × width × height bytes.
    pub pixel_data: &'a [u8],
}

/// How many bytes the pixels of a picture have.
fn pixel_bytes(sides: Vec2<u32>) -> u128
    ensures { result ≡ pixel_bytes sides.0 sides.1 }
{
    4 * u128::from(sides.0) * u128::from(sides.1)
}

/// The pixels at the front of some bytes, and the bytes behind them; 6 if they
/// are not all there.
fn read_pixels(bytes: &[u8], count: u128) -> Result<(&[u8], &[u8]), Refusal>
    ensures { split result ≡ pixels_at count bytes.now }
{
    let count = usize::try_from(count).map_err(|_| Refusal::MissingBytes)?;
    bytes.split_at_checked(count).ok_or(Refusal::MissingBytes)
}

/// Gives two sides and pixels to a sink.
fn write_parts<W: Sink>(sink: &mut W, sides: Vec2<u32>, pixels: &[u8]) -> Result<(), Full>
    ensures takes { GaveAll (W.means sink.old) (preview_bytes sides.0 sides.1 pixels.now) result (W.means sink.new) }
    ensures kept { W.keeps sink.old sink.new }
{
    write_slice_le(sink, &[sides.0, sides.1])?;
    write_all(sink, pixels)
}

impl<'a> Preview<'a> {
    /// The picture at the front of some bytes: width, height and pixels, and
    /// the bytes behind them. 6 if a side or a pixel is not there.
    pub fn read(bytes: &'a [u8]) -> Result<(Preview<'a>, &'a [u8]), Refusal>
        ensures { seen_by preview_form result ≡ picture bytes.now }
    {
        let (width, rest) = u32::read(bytes)?;
        let (height, rest) = u32::read(rest)?;
        let (pixel_data, rest) = read_pixels(rest, pixel_bytes(Vec2(width, height)))?;
        // `as`, also of the length below: std has no From for u32 to usize and usize to u128
        let size = Vec2(width as usize, height as usize);
        Ok((Preview { size, pixel_data }, rest))
    }

    /// How many bytes it has in a file: 8 for its sides, and its pixels. None
    /// if that does not fit, which no buffer in memory reaches.
    pub fn byte_size(&self) -> Option<usize>
        ensures { SomeIff result (preview_size self.now < 2 ^ 64) (preview_size self.now) }
    {
        self.pixel_data.len().checked_add(8)
    }

    /// Its sides as files have them, or 12 unless both are at most 4294967295
    /// and there are just 4 × width × height bytes of pixels.
    fn sides(&self) -> Result<Vec2<u32>, Refusal>
        ensures { result ≡ sides_or (preview_fits self.now) self.now.size }
    {
        let sides = Vec2::<u32>::try_from(self.size).map_err(|_| Refusal::InvalidSides)?;
        if self.pixel_data.len() as u128 == pixel_bytes(sides) {
            Ok(sides)
        } else {
            Err(Refusal::InvalidSides)
        }
    }

    /// 12 unless both sides are at most 4294967295 and there are just 4 × width
    /// × height bytes of pixels.
    pub fn validate(&self) -> Result<(), Refusal>
        ensures { refused_by result ≡ preview_ask self.now }
    {
        self.sides()?;
        Ok(())
    }

    /// Gives its sides and its pixels to a sink. What `validate` refuses gets 12
    /// before a byte is given; a sink that takes no more gets 20.
    pub fn write<W: Sink>(&self, sink: &mut W) -> Result<(), Refusal>
        ensures takes { Wrote (preview_ask self.now) (W.means sink.old) (preview_bytes self.now.size.0 self.now.size.1 self.now.pixel_data.now) result (W.means sink.new) }
        ensures kept { W.keeps sink.old sink.new }
    {
        write_parts(sink, self.sides()?, self.pixel_data)?;
        Ok(())
    }
}

ghost use Rattle.std.specs.Prelude.{◌≡◌};
ghost use Rattle.layout.specs.Fields.{size};
ghost use Rattle.layout.specs.Boxes.{box_bytes, corners};
ghost use Rattle.exr_value.specs.Seen.{seen_by};
ghost use Rattle.exr_sink.specs.Gifts.{GaveAll};
ghost use Rattle.exr_bounds.specs.Bounds.{bounds_at, box_of, corner_places};

use crate::bounds::IntegerBounds;
use exr_data::data::Data;
use exr_error::refusal::Refusal;
use exr_error::stop::Full;
use exr_io::runs::write_slice_le;
use exr_sink::sink::Sink;
use exr_value::fields::Field;
use exr_vec2::Vec2;

// A reader and a writer of its own: its four numbers are asked together.
impl IntegerBounds {
    /// How many bytes a box has in a file: 16.
    pub fn byte_size() -> usize
        ensures { result ≡ size corners }
    {
        4 * i32::BYTE_SIZE
    }

    /// The box at the front of some bytes: two corners, in any order on each
    /// axis, and the bytes behind them. 6 if a number is not there, then 11 if
    /// the box is out of range.
    pub fn read(bytes: &[u8]) -> Result<(IntegerBounds, &[u8]), Refusal>
        ensures { seen_by box_of result ≡ bounds_at bytes.now }
    {
        let (x, rest) = i32::read(bytes)?;
        let (y, rest) = i32::read(rest)?;
        let (x_end, rest) = i32::read(rest)?;
        let (y_end, rest) = i32::read(rest)?;
        let found = IntegerBounds::of_corners(Vec2(x, y), Vec2(x_end, y_end))?;
        Ok((found, rest))
    }

    /// Least x, least y, greatest x, greatest y.
    fn corners(&self) -> [i32; 4]
        ensures { result ≡ corner_places (box_of self.now) }
    {
        [self.x.least, self.y.least, self.x.last(), self.y.last()]
    }

    /// Gives its least and its greatest corner to a sink.
    pub fn write<W: Sink>(&self, sink: &mut W) -> Result<(), Full>
        ensures takes { GaveAll (W.means sink.old) (box_bytes (box_of self.now)) result (W.means sink.new) }
        ensures kept { W.keeps sink.old sink.new }
    {
        write_slice_le(sink, &self.corners())
    }
}

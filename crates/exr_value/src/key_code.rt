ghost use Rattle.std.specs.Prelude.{◌≡◌};
ghost use Rattle.layout.specs.Fields.{integers, size};
ghost use Rattle.layout.specs.KeyCodes.{key_code, key_code_bytes};
ghost use Rattle.exr_sink.specs.Gifts.{GaveAll};
ghost use Rattle.exr_value.specs.Seen.{seen_by};
ghost use Rattle.exr_value.specs.KeyCodes.{numbers_of, Taken, KeyCodesReadBack};

use crate::fields::Field;
use exr_data::data::Data;
use exr_error::fault::Fault;
use exr_error::refusal::Refusal;
use exr_error::stop::Full;
use exr_io::runs::write_slice_le;
use exr_read::read::read_exact;
use exr_sink::sink::Sink;
use exr_source::source::Source;

/// Identifies a frame of motion picture film.
#[derive(Clone, Copy, PartialEq, Eq)]
pub struct KeyCode {
    /// Identifies a film manufacturer.
    pub film_manufacturer_code: i32,
    /// Identifies a film type.
    pub film_type: i32,
    /// The film roll prefix.
    pub film_roll_prefix: i32,
    /// The film count.
    pub count: i32,
    /// The perforation offset.
    pub perforation_offset: i32,
    /// How many perforations a frame has.
    pub perforations_per_frame: i32,
    /// How many perforations a count has.
    pub perforations_per_count: i32,
}

// No trait joins the readers and writers of key codes, time codes, tile descriptions and boxes: each
// has its own fields and questions, and a trait would share the names alone.
impl KeyCode {
    /// How many bytes a key code has in a file: 28.
    pub fn byte_size() -> usize
        ensures { result ≡ size key_code }
    {
        7 * i32::BYTE_SIZE
    }

    /// The key code at the front of some bytes, and the bytes behind it; 6 if
    /// the bytes of one of its seven numbers are not there.
    pub fn read(bytes: &[u8]) -> Result<(KeyCode, &[u8]), Refusal>
        ensures { seen_by numbers_of result ≡ integers 7 bytes.now }
    {
        let (film_manufacturer_code, rest) = i32::read(bytes)?;
        let (film_type, rest) = i32::read(rest)?;
        let (film_roll_prefix, rest) = i32::read(rest)?;
        let (count, rest) = i32::read(rest)?;
        let (perforation_offset, rest) = i32::read(rest)?;
        let (perforations_per_frame, rest) = i32::read(rest)?;
        let (perforations_per_count, rest) = i32::read(rest)?;
        let key_code = KeyCode {
            film_manufacturer_code,
            film_type,
            film_roll_prefix,
            count,
            perforation_offset,
            perforations_per_frame,
            perforations_per_count,
        };
        Ok((key_code, rest))
    }

    /// Takes the 28 bytes of a key code from a source. If fewer are to come,
    /// they are all taken, and 18 or 19 tells how many.
    pub fn read_from<S: Source>(source: &mut S) -> Result<KeyCode, Fault>
        ensures takes { Taken (S.means source.old) result (S.means source.new) }
        ensures kept { S.keeps source.old source.new }
    {
        let mut bytes = [0u8; 28];
        read_exact(source, &mut bytes)?;
        let (key_code, _) = KeyCode::read(&bytes).map_err(|refusal| refusal.at(0, bytes.len()))?;
        Ok(key_code)
    }

    // Its fields are named as in the ported crate, so here and in `read` they are listed once each.
    /// Gives its seven numbers to a sink, in the order of the fields.
    pub fn write<W: Sink>(&self, sink: &mut W) -> Result<(), Full>
        ensures takes { GaveAll (W.means sink.old) (key_code_bytes (numbers_of self.now)) result (W.means sink.new) }
        ensures kept { W.keeps sink.old sink.new }
    {
        let numbers = [
            self.film_manufacturer_code,
            self.film_type,
            self.film_roll_prefix,
            self.count,
            self.perforation_offset,
            self.perforations_per_frame,
            self.perforations_per_count,
        ];
        write_slice_le(sink, &numbers)
    }
}

/// The bytes written for a key code are read back as the same key code,
/// whatever stands behind them.
pub fn key_codes_read_back()
    ensures { KeyCodesReadBack }
{}

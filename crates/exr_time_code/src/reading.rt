ghost use Rattle.std.specs.Prelude.{◌≡◌, [], ◌∷◌};
ghost use Rattle.layout.specs.Fields.{field_bytes, size};
ghost use Rattle.layout.specs.TimeCodes.{time_fields, time_numbers};
ghost use Rattle.exr_value.specs.Seen.{seen_by};
ghost use Rattle.exr_sink.specs.Gifts.{GaveAll};
ghost use Rattle.exr_time_code.specs.Times.{code_of_words, time_ask, time_at, time_of};
ghost use Rattle.exr_sink.specs.Writing.{Wrote};

use crate::time_code::TimeCode;
use exr_data::data::Data;
use exr_error::refusal::Refusal;
use exr_error::stop::Full;
use exr_io::runs::write_slice_le;
use exr_sink::sink::Sink;
use exr_value::fields::Field;

// A reader and a writer of its own: its numbers are packed into two words, and some are refused.
impl TimeCode {
    /// How many bytes a time code has in a file: 8.
    pub fn byte_size() -> usize
        ensures { result ≡ size time_fields }
    {
        2 * u32::BYTE_SIZE
    }

    /// The time code at the front of some bytes, its time word and then its
    /// user word, and the bytes behind it; 6 if a word is not there.
    pub fn read(bytes: &[u8]) -> Result<(TimeCode, &[u8]), Refusal>
        ensures { seen_by time_of result ≡ time_at bytes.now }
    {
        let (time_and_flags, rest) = u32::read(bytes)?;
        let (user_data, rest) = u32::read(rest)?;
        Ok((of_words(time_and_flags, user_data), rest))
    }

    /// Gives its two words to a sink. A number out of its range gets 13 before
    /// a byte is given; a sink that takes no more gets 20.
    pub fn write<W: Sink>(&self, sink: &mut W) -> Result<(), Refusal>
        ensures takes { Wrote (time_ask (time_of self.now)) (W.means sink.old) (field_bytes time_fields (time_numbers (time_of self.now))) result (W.means sink.new) }
        ensures kept { W.keeps sink.old sink.new }
    {
        let time_and_flags = self.pack_time_as_tv60_u32()?;
        write_words(sink, time_and_flags, self.pack_user_data_as_u32())?;
        Ok(())
    }
}

// A function of its own: without it the check leaves `returns` of `TimeCode::read` open.
/// The time code of its two words.
fn of_words(time_and_flags: u32, user_data: u32) -> TimeCode
    ensures { time_of result ≡ code_of_words time_and_flags user_data }
{
    TimeCode::from_tv60_time(time_and_flags, user_data)
}

// Two words, as `from_tv60_time` of the ported crate takes them.
/// Gives two words to a sink.
fn write_words<W: Sink>(sink: &mut W, time_and_flags: u32, user_data: u32) -> Result<(), Full>
    ensures takes { GaveAll (W.means sink.old) (field_bytes time_fields (time_and_flags ∷ user_data ∷ [])) result (W.means sink.new) }
    ensures kept { W.keeps sink.old sink.new }
{
    let words = [time_and_flags, user_data];
    write_slice_le(sink, &words)
}

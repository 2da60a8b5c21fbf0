ghost use Rattle.std.specs.Prelude.{◌≡◌, ◌+◌, ◌*◌, ◌/◌, ◌%◌};
ghost use Rattle.layout.specs.TimeCodes.{time_code, user_word, valid};
ghost use Rattle.exr_time_code.specs.Times.{packing, time_of, validity};

use crate::bits::Word;
use crate::groups::{groups_fit, packed_groups, unpack_user_data_from_u32};
use crate::time_code::TimeCode;
use exr_error::refusal::Refusal;

/// Two digits of a number below 100: the units in four bits, the tens above.
fn u8_to_decimal32(binary: u8) -> u32
    ensures { result ≡ binary % 10 + binary / 10 * 16 }
{
    u32::from(binary % 10) + u32::from(binary / 10) * 16
}

impl TimeCode {
    /// Whether each of its numbers is in its range: frame to 29, seconds and
    /// minutes to 59, hours to 23, groups to 15.
    fn is_valid(&self) -> bool
        ensures { result ≡ valid (time_of self.now) }
    {
        self.frame <= 29
            && self.seconds <= 59
            && self.minutes <= 59
            && self.hours <= 23
            && groups_fit(&self.binary_groups)
    }

    /// Refuses with 13 unless each of its numbers is in its range: frame to 29,
    /// seconds and minutes to 59, hours to 23, groups to 15.
    pub fn validate(&self) -> Result<(), Refusal>
        ensures { result ≡ validity (valid (time_of self.now)) }
    {
        if self.is_valid() {
            Ok(())
        } else {
            Err(Refusal::InvalidTimeCode)
        }
    }

    /// The time word, as files have it: each digit and flag at the bit place of
    /// SMPTE 12M. A number out of its range gets 13.
    pub fn pack_time_as_tv60_u32(&self) -> Result<u32, Refusal>
        ensures { result ≡ packing (time_of self.now) }
    {
        self.validate()?;
        let low = u8_to_decimal32(self.frame)
            + (u32::from(self.drop_frame) << 6)
            + (u32::from(self.color_frame) << 7);
        let next = (u8_to_decimal32(self.seconds) << 8) + (u32::from(self.field_phase) << 15);
        let high = (u8_to_decimal32(self.minutes) << 16)
            + (u32::from(self.binary_group_flags[0]) << 23);
        let top = (u8_to_decimal32(self.hours) << 24)
            + (u32::from(self.binary_group_flags[1]) << 30)
            + (u32::from(self.binary_group_flags[2]) << 31);
        Ok(low + next + high + top)
    }

    /// The time code of a time word and a user word. Digits above 9 count as
    /// they are, and no range is asked.
    pub fn from_tv60_time(tv60_time: u32, user_data: u32) -> TimeCode
        ensures { time_of result ≡ time_code tv60_time user_data }
    {
        let time = Word(tv60_time);
        TimeCode {
            hours: time.number(24, 2),
            minutes: time.number(16, 3),
            seconds: time.number(8, 3),
            frame: time.number(0, 2),
            drop_frame: time.flag(6),
            color_frame: time.flag(7),
            field_phase: time.flag(15),
            binary_group_flags: [time.flag(23), time.flag(30), time.flag(31)],
            binary_groups: unpack_user_data_from_u32(user_data),
        }
    }

    /// The user word: group g has bits 4g to 4g + 3, and one above 15 is taken
    /// as 15.
    pub fn pack_user_data_as_u32(&self) -> u32
        ensures { result ≡ user_word (time_of self.now).groups }
    {
        packed_groups(&self.binary_groups)
    }
}

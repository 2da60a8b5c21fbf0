ghost use Rattle.std.specs.Prelude.{◌≡◌, ◌≤◌, min, length};
ghost use Rattle.layout.specs.TimeCodes.{few, groups_of, user_word};

use crate::bits::Word;

/// The eight groups of a user word.
pub(crate) fn unpack_user_data_from_u32(user_data: u32) -> [u8; 8]
    ensures { result ≡ groups_of user_data }
{
    let word = Word(user_data);
    std::array::from_fn(|group| word.bits(4 * group, 4))
}

/// Whether each group has four bits.
pub(crate) fn groups_fit(groups: &[u8]) -> bool
    ensures { result ≡ few groups.now }
{
    groups.iter().all(|group| *group <= 15)
}

/// A group as it is packed: one above 15 is taken as 15.
fn nibble(group: u8) -> u32
    ensures { result ≡ min group 15 }
{
    u32::from(group.min(15))
}

/// The user word of at most eight groups: group g has bits 4g to 4g + 3.
pub(crate) fn packed_groups(groups: &[u8]) -> u32
    requires { length groups.now ≤ 8 }
    ensures { result ≡ user_word groups.now }
{
    let mut word = 0u32;
    for (index, group) in groups.iter().enumerate() {
        word += nibble(*group) << (4 * index);
    }
    word
}

ghost use Rattle.std.specs.Prelude.{◌≡◌, nat_le, refl};
ghost use Rattle.layout.specs.Kinds.{fields_of, line_order};
ghost use Rattle.exr_code.specs.Codes.{Decodes, line_order_number};

use crate::coded::Coded;
use exr_error::refusal::Refusal;

/// In what order the blocks of pixels stand in a file.
#[derive(Clone, Copy, PartialEq, Eq)]
pub enum LineOrder {
    /// From the top row down.
    Increasing,
    /// From the bottom row up.
    Decreasing,
    /// In no given order.
    Unspecified,
}

/// Its code.
impl From<LineOrder> for u8 {
    ghost from_gives = { λ e code. code ≡ line_order_number e };

    fn from(order: LineOrder) -> u8 {
        match order {
            LineOrder::Increasing => 0,
            LineOrder::Decreasing => 1,
            LineOrder::Unspecified => 2,
        }
    }
}

/// The case of a code; a code that is not listed gets 7.
impl TryFrom<u8> for LineOrder {
    type Error = Refusal;

    ghost try_from_gives = { Decodes line_order_number (λ code. nat_le code 2) 7 (λ _. Unit {0}) };

    fn try_from(code: u8) -> Result<LineOrder, Refusal> {
        match code {
            0 => Ok(LineOrder::Increasing),
            1 => Ok(LineOrder::Decreasing),
            2 => Ok(LineOrder::Unspecified),
            _ => Err(Refusal::UnknownCode),
        }
    }
}

impl Coded for LineOrder {
    ghost kind = { fields_of line_order };

    ghost code_of = { line_order_number };

    ghost listed = { λ code. nat_le code 2 };

    ghost question = { 7 };

    ghost Bare = { λ _. Unit {0} };

    ghost to_code = { λ x n h. h };

    ghost of_code = { λ n r h. h };

    ghost one = { refl };
}

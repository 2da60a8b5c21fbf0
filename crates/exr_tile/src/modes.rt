ghost use Rattle.std.specs.Prelude.{◌≡◌, [], ◌∷◌, refl};
ghost use Rattle.layout.specs.Kinds.{is_mode, mode};
ghost use Rattle.exr_code.specs.Codes.{Decodes};
ghost use Rattle.exr_tile.specs.Tiles.{mode_number};

use crate::level_mode::LevelMode;
use exr_code::coded::Coded;
use exr_error::refusal::Refusal;
use exr_math::rounding::RoundingMode;

/// The two modes of a tile description, which share a byte: 0 to 2 for the
/// level mode, and 16 more for rounding up.
#[derive(Clone, Copy)]
pub(crate) struct Modes {
    pub(crate) level: LevelMode,
    pub(crate) rounding: RoundingMode,
}

/// The mode byte.
impl From<Modes> for u8 {
    ghost from_gives = { λ m code. code ≡ mode_number m.level m.rounding };

    fn from(modes: Modes) -> u8 {
        let level = match modes.level {
            LevelMode::Singular => 0,
            LevelMode::MipMap => 1,
            LevelMode::RipMap => 2,
        };
        let rounding = match modes.rounding {
            RoundingMode::Down => 0,
            RoundingMode::Up => 1,
        };
        level + 16 * rounding
    }
}

/// The two modes of a mode byte; one that is not listed gets 7.
impl TryFrom<u8> for Modes {
    type Error = Refusal;

    ghost try_from_gives = { Decodes (λ m. mode_number m.level m.rounding) is_mode 7 (λ _. Unit {0}) };

    fn try_from(code: u8) -> Result<Modes, Refusal> {
        let (level, rounding) = match code {
            0 => (LevelMode::Singular, RoundingMode::Down),
            1 => (LevelMode::MipMap, RoundingMode::Down),
            2 => (LevelMode::RipMap, RoundingMode::Down),
            16 => (LevelMode::Singular, RoundingMode::Up),
            17 => (LevelMode::MipMap, RoundingMode::Up),
            18 => (LevelMode::RipMap, RoundingMode::Up),
            _ => return Err(Refusal::UnknownCode),
        };
        Ok(Modes { level, rounding })
    }
}

impl Coded for Modes {
    ghost kind = { mode ∷ [] };

    ghost code_of = { λ m. mode_number m.level m.rounding };

    ghost listed = { is_mode };

    ghost question = { 7 };

    ghost Bare = { λ _. Unit {0} };

    ghost to_code = { λ m n h. h };

    ghost of_code = { λ n r h. h };

    ghost one = { refl };
}

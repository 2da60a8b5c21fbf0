ghost use Rattle.std.specs.Prelude.{◌≡◌, nat_le, refl};
ghost use Rattle.layout.specs.Kinds.{fields_of, envmap};
ghost use Rattle.exr_code.specs.Codes.{Decodes, envmap_number};

use crate::coded::Coded;
use exr_error::refusal::Refusal;

/// How a texture is projected onto an environment.
#[derive(Clone, Copy, PartialEq, Eq)]
pub enum EnvironmentMap {
    /// Projected like a map of the world.
    LatitudeLongitude,
    /// The six sides of a cube.
    Cube,
}

/// Its code.
impl From<EnvironmentMap> for u8 {
    ghost from_gives = { λ e code. code ≡ envmap_number e };

    fn from(map: EnvironmentMap) -> u8 {
        match map {
            EnvironmentMap::LatitudeLongitude => 0,
            EnvironmentMap::Cube => 1,
        }
    }
}

/// The case of a code; a code that is not listed gets 7.
impl TryFrom<u8> for EnvironmentMap {
    type Error = Refusal;

    ghost try_from_gives = { Decodes envmap_number (λ code. nat_le code 1) 7 (λ _. Unit {0}) };

    fn try_from(code: u8) -> Result<EnvironmentMap, Refusal> {
        match code {
            0 => Ok(EnvironmentMap::LatitudeLongitude),
            1 => Ok(EnvironmentMap::Cube),
            _ => Err(Refusal::UnknownCode),
        }
    }
}

impl Coded for EnvironmentMap {
    ghost kind = { fields_of envmap };

    ghost code_of = { envmap_number };

    ghost listed = { λ code. nat_le code 1 };

    ghost question = { 7 };

    ghost Bare = { λ _. Unit {0} };

    ghost to_code = { λ x n h. h };

    ghost of_code = { λ n r h. h };

    ghost one = { refl };
}

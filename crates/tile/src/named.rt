// The pixel kinds that have names.
ghost use Rattle.std.specs.Prelude.{◌≡◌};
ghost use Rattle.tile.specs.NamedKinds.{HasNumber, kind_number};

use crate::fault::Ground;

// A pixel kind that has a name, with its number.
#[derive(Clone, Copy, PartialEq, Eq, Debug)]
pub enum PixelKind {
    Nearest = 1,
    Coverage = 2,
}

impl PixelKind {
    // The number that HEAD gives the kind.
    pub fn number(self) -> u8
        ensures { result ≡ kind_number self }
    {
        self as u8
    }
}

impl TryFrom<u8> for PixelKind {
    type Error = Ground;

    ghost try_from_gives = { HasNumber };

    fn try_from(number: u8) -> Result<PixelKind, Ground> {
        match number {
            1 => Ok(PixelKind::Nearest),
            2 => Ok(PixelKind::Coverage),
            _ => Err(Ground::WrongKind),
        }
    }
}

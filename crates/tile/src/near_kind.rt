// Nearest pixels as a kind.
ghost use Rattle.std.specs.Prelude.{◌≡◌, refl};
ghost use Rattle.tile.specs.Near.{nearest, meaning};
ghost use Rattle.tile.specs.NearLaws.{laws};

use crate::fault::{Fault, Ground, unranked};
use crate::kind::Pixel;
use crate::near::{Nearest, NearestRecord};

// With nearness 0 the colour does not count.
impl From<NearestRecord> for Nearest {
    ghost from_gives = { λ r p. p ≡ meaning r };

    fn from(plain: NearestRecord) -> Nearest {
        let NearestRecord { nearness, colour } = plain;
        Nearest {
            nearness,
            colour: if nearness == 0 { 0 } else { colour },
        }
    }
}

// The pixel as it lies in memory.
impl From<Nearest> for NearestRecord {
    ghost from_gives = { λ p r. r ≡ nearest.plain p };

    fn from(pixel: Nearest) -> NearestRecord {
        NearestRecord {
            nearness: pixel.nearness,
            colour: pixel.colour,
        }
    }
}

impl Pixel for Nearest {
    type Record = NearestRecord;

    const KIND: u8 = 1;

    const WORDS: usize = 2;

    ghost KIND = { 1 };

    ghost WORDS = { 2 };

    ghost model = { nearest };

    ghost same_number = { refl };

    ghost same_width = { refl };

    ghost lawful = { laws };

    fn blank() -> Nearest {
        Nearest {
            nearness: 0,
            colour: 0,
        }
    }

    fn join(self, back: Nearest) -> Nearest {
        if self.nearness >= back.nearness {
            self
        } else {
            back
        }
    }

    fn from_record(plain: NearestRecord) -> Nearest {
        Nearest::from(plain)
    }

    fn to_record(self) -> NearestRecord {
        NearestRecord::from(self)
    }

    fn write(self, out: &mut [u32]) -> Result<(), Fault> {
        if out.len() < Self::WORDS {
            return Err(unranked(Ground::TooShort));
        }
        out[0] = self.nearness;
        out[1] = self.colour;
        Ok(())
    }

    fn read(words: &[u32]) -> Option<Nearest> {
        let &[nearness, colour] = words else {
            return None;
        };
        if nearness == 0 && colour != 0 {
            return None;
        }
        Some(Nearest { nearness, colour })
    }
}

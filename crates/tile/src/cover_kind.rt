// Coverage pixels as a kind.
ghost use Rattle.std.specs.Prelude.{◌≡◌, refl};
ghost use Rattle.tile.specs.Cover.{coverage, meaning};
ghost use Rattle.tile.specs.CoverLaws.{laws};

use crate::cover::{Coverage, CoverageRecord};
use crate::fault::{Fault, Ground, unranked};
use crate::kind::Pixel;
use std::array;

// Bits outside the mask do not count.
impl From<CoverageRecord> for Coverage {
    ghost from_gives = { λ r p. p ≡ meaning r };

    fn from(plain: CoverageRecord) -> Coverage {
        let mask = plain.mask;
        Coverage {
            mask,
            planes: plain.planes.map(|plane| plane & mask),
        }
    }
}

// The pixel as it lies in memory.
impl From<Coverage> for CoverageRecord {
    ghost from_gives = { λ p r. r ≡ coverage.plain p };

    fn from(pixel: Coverage) -> CoverageRecord {
        let planes = pixel.planes;
        CoverageRecord {
            mask: pixel.mask,
            planes,
        }
    }
}

impl Pixel for Coverage {
    type Record = CoverageRecord;

    const KIND: u8 = 2;

    const WORDS: usize = 5;

    ghost KIND = { 2 };

    ghost WORDS = { 5 };

    ghost model = { coverage };

    ghost same_number = { refl };

    ghost same_width = { refl };

    ghost lawful = { laws };

    fn blank() -> Coverage {
        Coverage {
            mask: 0,
            planes: [0; 4],
        }
    }

    fn join(self, back: Coverage) -> Coverage {
        let outside = !self.mask;
        Coverage {
            mask: self.mask | back.mask,
            planes: array::from_fn(|k| self.planes[k] | (back.planes[k] & outside)),
        }
    }

    fn from_record(plain: CoverageRecord) -> Coverage {
        Coverage::from(plain)
    }

    fn to_record(self) -> CoverageRecord {
        CoverageRecord::from(self)
    }

    fn write(self, out: &mut [u32]) -> Result<(), Fault> {
        if out.len() < Self::WORDS {
            return Err(unranked(Ground::TooShort));
        }
        out[0] = self.mask;
        out[1..Self::WORDS].copy_from_slice(&self.planes);
        Ok(())
    }

    fn read(words: &[u32]) -> Option<Coverage> {
        let &[mask, a, b, c, d] = words else {
            return None;
        };
        let planes = [a, b, c, d];
        if planes.iter().all(|plane| *plane & mask == *plane) {
            Some(Coverage { mask, planes })
        } else {
            None
        }
    }
}

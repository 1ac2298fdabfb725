// Faults as text.
ghost use Rattle.std.specs.Prelude.{◌≡◌, Some};
ghost use Rattle.tile.specs.Texts.{sentence, rank_text, fault_text};

use crate::fault::{Fault, Ground, NO_RANK};
use std::error::Error;
use std::fmt;

impl Ground {
    // What it means, in a few words.
    pub fn sentence(self) -> &'static str
        ensures { result.now ≡ sentence self }
    {
        match self {
            Ground::UnknownRecord => "unknown record kind",
            Ground::CutShort => "dump cut short",
            Ground::OutOfPlace => "record out of place",
            Ground::WrongRank => "not the rank due",
            Ground::OffLimits => "ranks or pixels outside their limits",
            Ground::WrongKind => "wrong pixel kind",
            Ground::UnlawfulPixel => "unlawful pixel",
            Ground::Outside => "rank or pixel number outside",
            Ground::TooShort => "memory too short",
            Ground::Unsuited => "does not suit",
            Ground::WrongLength => "no words or too many",
            Ground::BoxTaken => "box not empty",
            Ground::BoxEmpty => "box empty",
            Ground::Spoilt => "message spoilt",
            Ground::NoDelivery => "no such delivery",
            Ground::NotClosed => "picture not closed",
            Ground::Finished => "rank finished",
            Ground::Unfinished => "some rank unfinished",
            Ground::BoxesInUse => "messages waiting",
            Ground::BadMessage => "wrong message",
        }
    }
}

impl fmt::Display for Ground {
    ghost output = { λ x. Some (sentence x) };

    fn fmt<W: fmt::Write>(&self, f: &mut fmt::Formatter<W>) -> fmt::Result {
        let sentence = self.sentence();
        write!(f, "{sentence}")
    }
}

// A rank as text, `none` where there is none.
#[derive(Clone, Copy)]
struct RankText(u32);

impl fmt::Display for RankText {
    ghost output = { λ x. Some (rank_text x.0) };

    fn fmt<W: fmt::Write>(&self, f: &mut fmt::Formatter<W>) -> fmt::Result {
        let rank = self.0;
        if rank == NO_RANK {
            return write!(f, "none");
        }
        write!(f, "{rank}")
    }
}

// The line that tells a fault.
impl fmt::Display for Fault {
    ghost output = { λ x. Some (fault_text x) };

    fn fmt<W: fmt::Write>(&self, f: &mut fmt::Formatter<W>) -> fmt::Result {
        let number = self.number();
        let cause = self.ground();
        let part = self.part();
        let rank = RankText(self.rank());
        let place = self.place();
        write!(
            f,
            "refused {number}: {cause} (part {part}, rank {rank}, place {place})"
        )
    }
}

impl Error for Fault {}

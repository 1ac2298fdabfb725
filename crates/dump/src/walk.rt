// A dump that is being read, record by record.
ghost use Rattle.std.specs.Prelude.{◌≡◌, false, length, MatchOption};
ghost use Rattle.tile.specs.declared.fault.Fault.TheVariants.{Dump};
ghost use Rattle.dump.specs.Phases.{Before, Behind, heading, phase};
ghost use Rattle.dump.specs.Order.{finished, last_rank, rank_told};
ghost use Rattle.dump.specs.Pixels.{Short, Stepped, ahead, placed, placed_by};
ghost use Rattle.dump.specs.Records.{body_of, kind_of};

use crate::order::admit;
use crate::pixels::PixelAt;
use crate::reader::{Item, Reader, Record};
use crate::stage::{Head, Stage};
use tile::fault::{Fault, Ground, NO_RANK};

// A dump, a cursor in it, and the stage that the records before the cursor have led to.
#[derive(Drop)]
pub(crate) struct Walk<'a> {
    pub(crate) reader: Reader<'a>,
    pub(crate) stage: Stage,
}

// The last sound RANK's rank, after so many sections.
fn last_rank(sections: u32) -> u32
    ensures { result ≡ last_rank sections }
{
    sections.checked_sub(1).unwrap_or(NO_RANK)
}

// The rank that a fault tells.
fn rank_told(stage: Stage, cause: Ground) -> u32
    ensures { result ≡ rank_told (phase stage) cause }
{
    match (stage, cause) {
        (Stage::Start, _) => NO_RANK,
        (Stage::Within(p), Ground::WrongRank) => p.sections,
        (Stage::Within(p), _) => last_rank(p.sections),
        (Stage::Ended(head), _) => last_rank(head.ranks),
    }
}

// The pixel that a record places at a stage, if any.
fn pixel_at<'a>(stage: Stage, item: Item<'a>) -> Option<PixelAt<'a>>
    ensures pixel { placed_by result ≡ placed (phase stage) (kind_of item.entry.content) (body_of item.entry.content) }
    ensures short { Short result }
{
    let Stage::Within(p) = stage else {
        return None;
    };
    let (Record::Near(body) | Record::Cover(body)) = item.content else {
        return None;
    };
    Some(PixelAt {
        rank: p.sections.saturating_sub(1),
        number: p.due,
        body,
    })
}

impl<'a> Walk<'a> {
    // Before the first record.
    pub(crate) fn new(bytes: &'a [u8]) -> Walk<'a>
        ensures bytes { result.reader.bytes.now ≡ bytes.now }
        ensures ahead { ahead result ≡ bytes.now }
        ensures start { phase result.stage ≡ Before }
    {
        Walk {
            reader: Reader::new(bytes),
            stage: Stage::Start,
        }
    }

    // The head, where END was read and no byte is left.
    pub(crate) fn ended(&self) -> Option<Head>
        ensures { MatchOption result (finished (phase self.now.stage) (length (ahead self.now)) ≡ false) (λ h. (phase self.now.stage ≡ Behind (heading h)) × (length (ahead self.now) ≡ 0)) }
    {
        match self.stage {
            Stage::Ended(head) if self.reader.at == self.reader.bytes.len() => Some(head),
            _ => None,
        }
    }

    // The fault of the record at the cursor.
    pub(crate) fn fault(&self, cause: Ground) -> Fault
        ensures { result ≡ Dump cause (rank_told (phase self.now.stage) cause) self.now.reader.at }
    {
        Fault::Dump {
            ground: cause,
            rank: rank_told(self.stage, cause),
            place: self.reader.at,
        }
    }

    // Takes the record at the cursor and tells the pixel that it places, if any; or the ground on which it is refused, all staying.
    pub(crate) fn step(&mut self) -> Result<Option<PixelAt<'a>>, Ground>
        ensures { Stepped self.old result self.new }
    {
        let item = self.reader.peek()?;
        let next = admit(self.stage, item)?;
        let placed = pixel_at(self.stage, item);
        self.reader.pass(item);
        self.stage = next;
        Ok(placed)
    }
}

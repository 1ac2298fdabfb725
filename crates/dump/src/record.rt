// The kinds of records, and a record as it stands in a dump.
ghost use Rattle.std.specs.Prelude.{◌≡◌, ◌+◌, length};
ghost use Rattle.dump.specs.Records.{body_of, body_size, kind_of};
ghost use Rattle.dump.specs.RecordKinds.{HasNumber, record_number};

use tile::cover::Coverage;
use tile::fault::Ground;
use tile::kind::Pixel;
use tile::near::Nearest;

// A kind of record.
#[derive(Clone, Copy)]
pub(crate) enum RecordKind {
    Head,
    Rank,
    Place,
    Near,
    Cover,
    End,
}

// A record by its kind, with its body as a part of the dump.
// Stays: the variants are public, and bodies as arrays would ask more of whoever makes a record and its size; a record that was read keeps its length in its item.
#[derive(Clone, Copy)]
pub enum Record<'a> {
    Head(&'a [u8]),
    Rank(&'a [u8]),
    Place(&'a [u8]),
    Near(&'a [u8]),
    Cover(&'a [u8]),
    End,
}

// A record and its offset in the dump; its body is as long as its kind says.
#[derive(Clone, Copy)]
pub struct Item<'a> {
    pub offset: usize,
    pub content: Record<'a>,
    ghost whole: { length (body_of content) ≡ body_size (kind_of content) },
}

impl TryFrom<u8> for RecordKind {
    type Error = Ground;

    ghost try_from_gives = { HasNumber };

    fn try_from(number: u8) -> Result<RecordKind, Ground> {
        match number {
            1 => Ok(RecordKind::Head),
            2 => Ok(RecordKind::Rank),
            3 => Ok(RecordKind::Place),
            4 => Ok(RecordKind::Near),
            5 => Ok(RecordKind::Cover),
            6 => Ok(RecordKind::End),
            _ => Err(Ground::UnknownRecord),
        }
    }
}

impl RecordKind {
    // How long a body of the kind is.
    pub(crate) fn body_size(self) -> usize
        ensures { result ≡ body_size (record_number self) }
    {
        match self {
            RecordKind::Head => 4,
            RecordKind::Rank => 1,
            RecordKind::Place => 2,
            RecordKind::Near => 4 * Nearest::WORDS,
            RecordKind::Cover => 4 * Coverage::WORDS,
            RecordKind::End => 0,
        }
    }

    // The record of this kind with this body.
    pub(crate) fn with_body(self, body: &[u8]) -> Record
        requires { length body.now ≡ body_size (record_number self) }
        ensures kind { kind_of result ≡ record_number self }
        ensures body { body_of result ≡ body.now }
    {
        match self {
            RecordKind::Head => Record::Head(body),
            RecordKind::Rank => Record::Rank(body),
            RecordKind::Place => Record::Place(body),
            RecordKind::Near => Record::Near(body),
            RecordKind::Cover => Record::Cover(body),
            RecordKind::End => Record::End,
        }
    }
}

impl<'a> Record<'a> {
    // Its kind.
    fn kind(&self) -> RecordKind
        ensures { record_number result ≡ kind_of self.now }
    {
        match self {
            Record::Head(_) => RecordKind::Head,
            Record::Rank(_) => RecordKind::Rank,
            Record::Place(_) => RecordKind::Place,
            Record::Near(_) => RecordKind::Near,
            Record::Cover(_) => RecordKind::Cover,
            Record::End => RecordKind::End,
        }
    }

    // How many bytes of the dump it takes.
    pub fn size(&self) -> usize
        ensures { result ≡ 1 + body_size (kind_of self.now) }
    {
        1 + self.kind().body_size()
    }
}

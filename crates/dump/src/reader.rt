// The records of a dump, one by one.
ghost use Rattle.std.specs.Prelude.{◌≡◌, ◌≤◌, length, drop, Some, MatchResult};
ghost use Rattle.dump.specs.Records.{Leads, no_record};
ghost use Rattle.dump.specs.Items.{Stands, StandsAt};

use crate::record::RecordKind;
pub use crate::record::{Item, Record};
use tile::fault::Ground;

// A dump and a cursor in it.
#[derive(Drop)]
pub struct Reader<'a> {
    pub(crate) bytes: &'a [u8],
    pub(crate) at: usize,
    ghost within: { at ≤ length bytes.now },
}

// The record that leads `rest`, or the ground on which none does.
fn leading(rest: &[u8]) -> Result<Record, Ground>
    ensures { MatchResult result (λ d. Leads d rest.now) (λ g. no_record rest.now ≡ Some g) }
{
    let (number, after) = rest.split_first().ok_or(Ground::CutShort)?;
    let kind = RecordKind::try_from(*number)?;
    let body = after.get(..kind.body_size()).ok_or(Ground::CutShort)?;
    Ok(kind.with_body(body))
}

impl<'a> Reader<'a> {
    // A reader at the dump's start.
    pub fn new(bytes: &'a [u8]) -> Reader<'a>
        ensures bytes { result.bytes.now ≡ bytes.now }
        ensures start { result.at ≡ 0 }
    {
        Reader { bytes, at: 0 }
    }

    // The record at the cursor, or the ground on which none stands there.
    pub(crate) fn peek(&self) -> Result<Item<'a>, Ground>
        ensures { MatchResult result (λ i. StandsAt self.now.bytes.now self.now.at i) (λ g. no_record (drop self.now.at self.now.bytes.now) ≡ Some g) }
    {
        let content = leading(&self.bytes[self.at..])?;
        Ok(Item {
            offset: self.at,
            content,
        })
    }

    // Moves past the record at the cursor.
    pub(crate) fn pass(&mut self, item: Item<'a>)
        requires { StandsAt self.old.bytes.now self.old.at item }
        ensures bytes { self.new.bytes.now ≡ self.old.bytes.now }
        ensures stands { Stands self.old.bytes.now self.old.at item.entry self.new.at }
    {
        self.at += item.content.size();
    }

    // The record at the cursor, which moves past it; or the ground on which none stands there, the cursor staying.
    pub fn next(&mut self) -> Result<Item<'a>, Ground>
        ensures bytes { self.new.bytes.now ≡ self.old.bytes.now }
        ensures read { MatchResult result (λ i. Stands self.old.bytes.now self.old.at i self.new.at) (λ g. (no_record (drop self.old.at self.old.bytes.now) ≡ Some g) × (self.new.at ≡ self.old.at)) }
    {
        let item = self.peek()?;
        self.pass(item);
        Ok(item)
    }
}

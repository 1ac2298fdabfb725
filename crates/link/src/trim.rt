// The layer that leaves out leading and trailing zero words.
ghost use Rattle.std.specs.Prelude.{◌≡◌};
ghost use Rattle.link.specs.Trim.{trim_model};
ghost use Rattle.link.specs.TrimLaws.{trim_lawful};

use super::Link;
use super::pair::{Pair, is_length};
use super::zeros::{read_trimmed, write_trimmed};
use tile::fault::{Fault, Ground};

// A link over `below`; the scratch memory has room for the longest message of any link.
// Stays: a layer has no heap, so its scratch memory is an array that is filled as far as a message goes.
#[derive(Drop)]
pub struct Trim<'a, B: Link> {
    below: &'a mut B,
    scratch: [u32; 5200],
}

impl<'a, B: Link> Trim<'a, B> {
    // The layer on a link.
    pub fn new(below: &'a mut B) -> Trim<'a, B>
        ensures { result.below.now ≡ below.old }
    {
        Trim {
            below,
            scratch: [0; 5200],
        }
    }
}

impl<'a, B: Link> Link for Trim<'a, B> {
    ghost model = { λ s. trim_model (B.Link.model s.below.now) };

    ghost laws = { λ s. trim_lawful (B.Link.model s.below.now) (B.Link.laws s.below.now) };

    fn ranks(&self) -> u32 {
        self.below.ranks()
    }

    fn longest(&self) -> u32 {
        self.below.longest().saturating_sub(2)
    }

    fn send(&mut self, pair: Pair, words: &[u32]) -> Result<(), Fault> {
        pair.require(pair.is_in(self.ranks()), Ground::Outside)?;
        pair.require(is_length(self.longest(), words.len()), Ground::WrongLength)?;
        let size = write_trimmed(&mut self.scratch, words);
        self.below.send(pair, &self.scratch[..size])
    }

    fn read(&mut self, pair: Pair, area: &mut [u32]) -> Result<usize, Fault> {
        let longest = self.longest();
        pair.require(pair.is_in(self.ranks()), Ground::Outside)?;
        pair.require(longest as usize <= area.len(), Ground::TooShort)?;
        let size = self.below.read(pair, &mut self.scratch)?;
        read_trimmed(&self.scratch[..size], longest, area).ok_or(pair.fault(Ground::Spoilt))
    }

    fn clear(&mut self, pair: Pair) -> Result<(), Fault> {
        self.below.clear(pair)
    }

    fn waiting(&self, pair: Pair) -> Result<bool, Fault> {
        self.below.waiting(pair)
    }
}

// The line link as a link.
ghost use Rattle.std.specs.Prelude.{◌≡◌, ◌+◌, ◌≤◌, if◌then◌else◌, length, IfSome, slice_index};
ghost use Rattle.tile.specs.declared.fault.Fault.TheVariants.{Link as LinkFault};
ghost use Rattle.tile.specs.declared.fault.Ground.TheVariants.{Outside};
ghost use Rattle.link.specs.Model.{is_pair};
ghost use Rattle.link.specs.Calls.{Send, Read, Clear};
ghost use Rattle.boxes.specs.Lines.{line_words, box_number, place, Queued, Dequeued};
ghost use Rattle.boxes.specs.LineLaws.{lawful};
ghost use Rattle.boxes.specs.LineState.{queue, line_link_model};
ghost use Rattle.boxes.specs.Sizes.{started};

use super::entries::{box_number, find, write_entry};
use super::line::LineLink;
use super::messages::read_message;
use super::sizes::Sizes;
use link::Link;
use link::pair::{Pair, is_length};
use tile::fault::{Fault, Ground};

impl<'a> LineLink<'a> {
    // A link over `words` with all boxes empty; one without ranks where a size is outside its limits or the words are too few.
    pub fn new(ranks: u32, longest: u32, words: &'a mut [u32]) -> LineLink<'a>
        ensures { line_link_model result ≡ started ranks longest (line_words ranks longest) (length words.old) }
    {
        let sizes = Sizes::new(ranks, longest)
            .filter(|sizes| sizes.line_words() <= words.len())
            .unwrap_or_default();
        LineLink {
            sizes,
            used: 0,
            words,
        }
    }

    // The number of a pair's box.
    fn number(&self, pair: Pair) -> Result<u32, Fault>
        ensures { result ≡ (if is_pair self.now.sizes.ranks pair.from pair.to then Ok (box_number self.now.sizes.ranks pair.from pair.to) else Err (LinkFault Outside pair.to)) }
    {
        pair.require(pair.is_in(self.sizes.ranks), Ground::Outside)?;
        Ok(box_number(self.sizes.ranks, pair))
    }

    // Where the entry of a box starts, if it is not empty.
    fn seek(&self, number: u32) -> Option<usize>
        ensures is { result ≡ place number (queue self.now) }
        ensures within { IfSome result (λ at. at + (2 + slice_index self.now.words.now (at + 1)) ≤ self.now.used) }
    {
        find(&self.words[..self.used], number)
    }

    // The call `read`, which changes no word.
    // Stays: on `&self`, since a part that a `&mut self` lends to be read leaves a proof without the words.
    fn read_words(&self, pair: Pair, area: &mut [u32]) -> Result<usize, Fault>
        ensures { Read (line_link_model self.now) (line_link_model self.now) pair.from pair.to area.old area.new result }
    {
        let number = self.number(pair)?;
        pair.require(self.sizes.longest as usize <= area.len(), Ground::TooShort)?;
        let at = self.seek(number).ok_or(pair.fault(Ground::BoxEmpty))?;
        Ok(read_message(&self.words[at + 1..], area))
    }
}

impl<'a> Link for LineLink<'a> {
    ghost model = { line_link_model };

    ghost laws = { lawful };

    fn ranks(&self) -> u32 {
        self.sizes.ranks
    }

    fn longest(&self) -> u32 {
        self.sizes.longest
    }

    #[tactic(auto, using(crate::proofs::LineCalls::vacancy))]
    fn send(&mut self, pair: Pair, words: &[u32]) -> Result<(), Fault>
        ensures call { Send (line_link_model self.old) (line_link_model self.new) pair.from pair.to words.now result }
        ensures order { Queued (line_link_model self.old) pair.from pair.to words.now (queue self.old) (queue self.new) }
    {
        let number = self.number(pair)?;
        pair.require(
            is_length(self.sizes.longest, words.len()),
            Ground::WrongLength,
        )?;
        pair.require(self.seek(number).is_none(), Ground::BoxTaken)?;
        write_entry(&mut self.words[self.used..], number, words);
        self.used += 2 + words.len();
        Ok(())
    }

    fn read(&mut self, pair: Pair, area: &mut [u32]) -> Result<usize, Fault> {
        self.read_words(pair, area)
    }

    // The line ends before the entry while the words behind it move down.
    #[tactic(auto, using(crate::proofs::LineCalls::vacancy))]
    fn clear(&mut self, pair: Pair) -> Result<(), Fault>
        ensures call { Clear (line_link_model self.old) (line_link_model self.new) pair.from pair.to result }
        ensures order { Dequeued (line_link_model self.old) pair.from pair.to (queue self.old) (queue self.new) }
    {
        let number = self.number(pair)?;
        let at = self.seek(number).ok_or(pair.fault(Ground::BoxEmpty))?;
        let used = self.used;
        let next = at + 2 + self.words[at + 1] as usize;
        self.used = at;
        self.words.copy_within(next..used, at);
        self.used = at + (used - next);
        Ok(())
    }

    #[tactic(auto, using(crate::proofs::LineCalls::vacancy))]
    fn waiting(&self, pair: Pair) -> Result<bool, Fault> {
        let number = self.number(pair)?;
        Ok(self.seek(number).is_some())
    }
}

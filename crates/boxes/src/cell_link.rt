// The cell link as a link.
ghost use Rattle.std.specs.Prelude.{◌≡◌, ◌+◌, ◌≤◌, if◌then◌else◌, length, IfOk};
ghost use Rattle.tile.specs.declared.fault.Fault.TheVariants.{Link as LinkFault};
ghost use Rattle.tile.specs.declared.fault.Ground.TheVariants.{Outside};
ghost use Rattle.boxes.specs.CellState.{cell_link_model};
ghost use Rattle.boxes.specs.CellLaws.{lawful};
ghost use Rattle.boxes.specs.Cells.{cell_words, place};
ghost use Rattle.boxes.specs.Sizes.{started};
ghost use Rattle.link.specs.Calls.{Read};
ghost use Rattle.link.specs.Model.{is_pair};

use super::cell::CellLink;
use super::messages::{read_message, write_message};
use super::sizes::Sizes;
use link::Link;
use link::pair::{Pair, is_length};
use tile::fault::{Fault, Ground};

impl<'a> CellLink<'a> {
    // A link over `words` with all boxes empty; one without ranks where a size is outside its limits or the words are too few.
    pub fn new(ranks: u32, longest: u32, words: &'a mut [u32]) -> CellLink<'a>
        ensures { cell_link_model result ≡ started ranks longest (cell_words ranks longest) (length words.old) }
    {
        let fitting = Sizes::new(ranks, longest).filter(|sizes| sizes.cell_words() <= words.len());
        let Some(sizes) = fitting else {
            let sizes = Sizes::default();
            return CellLink { sizes, words };
        };
        words.fill(0);
        CellLink { sizes, words }
    }

    // Where the box of a pair starts.
    fn start(&self, pair: Pair) -> Result<usize, Fault>
        ensures is { result ≡ (if is_pair self.now.sizes.ranks pair.from pair.to then Ok (place self.now.sizes.ranks self.now.sizes.longest pair.from pair.to) else Err (LinkFault Outside pair.to)) }
        ensures within { IfOk result (λ at. at + (self.now.sizes.longest + 1) ≤ cell_words self.now.sizes.ranks self.now.sizes.longest) }
    {
        let Sizes { ranks, longest } = self.sizes;
        pair.require(pair.is_in(ranks), Ground::Outside)?;
        Ok((pair.from as usize * ranks as usize + pair.to as usize) * (longest as usize + 1))
    }

    // The call `read`, which changes no word.
    // Stays: on `&self`, since a part that a `&mut self` lends to be read leaves a proof without the words.
    fn read_words(&self, pair: Pair, area: &mut [u32]) -> Result<usize, Fault>
        ensures { Read (cell_link_model self.now) (cell_link_model self.now) pair.from pair.to area.old area.new result }
    {
        let at = self.start(pair)?;
        pair.require(self.sizes.longest as usize <= area.len(), Ground::TooShort)?;
        pair.require(self.words[at] != 0, Ground::BoxEmpty)?;
        pair.require(self.words[at] <= self.sizes.longest, Ground::Spoilt)?;
        Ok(read_message(&self.words[at..], area))
    }
}

impl<'a> Link for CellLink<'a> {
    ghost model = { cell_link_model };

    ghost laws = { lawful };

    fn ranks(&self) -> u32 {
        self.sizes.ranks
    }

    fn longest(&self) -> u32 {
        self.sizes.longest
    }

    fn send(&mut self, pair: Pair, words: &[u32]) -> Result<(), Fault> {
        let at = self.start(pair)?;
        pair.require(
            is_length(self.sizes.longest, words.len()),
            Ground::WrongLength,
        )?;
        pair.require(self.words[at] == 0, Ground::BoxTaken)?;
        write_message(&mut self.words[at..], words);
        Ok(())
    }

    fn read(&mut self, pair: Pair, area: &mut [u32]) -> Result<usize, Fault> {
        self.read_words(pair, area)
    }

    #[tactic(auto, using(crate::proofs::CellCalls::pair_box))]
    fn clear(&mut self, pair: Pair) -> Result<(), Fault> {
        let at = self.start(pair)?;
        pair.require(self.words[at] != 0, Ground::BoxEmpty)?;
        self.words[at] = 0;
        Ok(())
    }

    fn waiting(&self, pair: Pair) -> Result<bool, Fault> {
        let at = self.start(pair)?;
        Ok(self.words[at] != 0)
    }
}

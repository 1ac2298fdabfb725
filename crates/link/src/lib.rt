// Links: boxes for messages between ranks, and layers on any link.
#![tactic(auto)]

ghost use Rattle.std.specs.Prelude.{◌≡◌};
ghost use Rattle.link.specs.Calls.{Send, Read, Clear, Waiting};
ghost use Rattle.link.specs.Model.{LinkModel, LinkLaws};

pub mod echo;
pub mod examples;
pub mod pair;
pub mod trim;
mod zeros;

use crate::pair::Pair;
use tile::fault::Fault;

// A number of ranks with a box for each ordered pair of them.
pub trait Link {
    ghost model: { Self → LinkModel };

    // How many ranks the link has.
    fn ranks(&self) -> u32
        ensures { result ≡ (model self.now).ranks };

    // How many words its longest message has.
    fn longest(&self) -> u32
        ensures { result ≡ (model self.now).longest };

    // Puts a message into an empty box.
    fn send(&mut self, pair: Pair, words: &[u32]) -> Result<(), Fault>
        ensures { Send (model self.old) (model self.new) pair.from pair.to words.now result };

    // Copies the message of a box first into `area` and answers its length.
    fn read(&mut self, pair: Pair, area: &mut [u32]) -> Result<usize, Fault>
        ensures { Read (model self.old) (model self.new) pair.from pair.to area.old area.new result };

    // Empties a box.
    fn clear(&mut self, pair: Pair) -> Result<(), Fault>
        ensures { Clear (model self.old) (model self.new) pair.from pair.to result };

    // Whether a box is not empty.
    fn waiting(&self, pair: Pair) -> Result<bool, Fault>
        ensures { Waiting (model self.now) pair.from pair.to result };

    // What every link keeps.
    ghost laws: { (link : Self) → LinkLaws (model link) };
}

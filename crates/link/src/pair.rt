// What every link tests and answers in the same way.
ghost use Rattle.std.specs.Prelude.{◌≡◌, Ok, Err, if◌then◌else◌};
ghost use Rattle.tile.specs.declared.fault.Fault.TheVariants.{Link as LinkFault};
ghost use Rattle.link.specs.Calls.{is_length};
ghost use Rattle.link.specs.Model.{is_pair};

use tile::fault::{Fault, Ground};

// The sender and the receiver whose box a call is about.
#[derive(Clone, Copy, PartialEq, Eq, Debug)]
pub struct Pair {
    pub from: u32,
    pub to: u32,
}

impl Pair {
    // Whether the two are different ranks below `ranks`.
    pub fn is_in(self, ranks: u32) -> bool
        ensures { result ≡ is_pair ranks self.from self.to }
    {
        self.from < ranks && self.to < ranks && self.from != self.to
    }

    // The fault of a call, which names the receiver.
    pub fn fault(self, cause: Ground) -> Fault
        ensures { result ≡ LinkFault cause self.to }
    {
        Fault::Link {
            ground: cause,
            rank: self.to,
        }
    }

    // Refuses a call on this ground unless `holds`.
    pub fn require(self, holds: bool, cause: Ground) -> Result<(), Fault>
        ensures { result ≡ (if holds then Ok tt else Err (LinkFault cause self.to)) }
    {
        holds.then_some(()).ok_or(self.fault(cause))
    }
}

// Whether a message may have `count` words.
pub fn is_length(longest: u32, count: usize) -> bool
    ensures { result ≡ is_length longest count }
{
    0 < count && count <= longest as usize
}

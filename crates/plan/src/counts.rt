// How many ranks and pixels there are.
ghost use Rattle.std.specs.Prelude.{◌≡◌, ◌<◌, ◌≤◌, MatchResult};
ghost use Rattle.tile.specs.declared.fault.Fault.TheVariants.{Plan};
ghost use Rattle.tile.specs.declared.fault.Ground.TheVariants.{OffLimits};
ghost use Rattle.plan.specs.Answers.{outside};
ghost use Rattle.plan.specs.Model.{Limits};
ghost use Rattle.plan.specs.Runs.{run_of};

use crate::runs::Run;
use tile::fault::{Fault, Ground};

// The ranks of a plan and the pixels of its tile, both within their limits.
#[derive(Clone, Copy)]
pub(crate) struct Counts {
    pub(crate) ranks: u32,
    pub(crate) pixels: u32,
    ghost limits: { Limits ranks pixels },
}

impl Counts {
    // Refuses counts outside their limits.
    pub(crate) fn new(ranks: u32, pixels: u32) -> Result<Counts, Fault>
        ensures { MatchResult result (λ c. (c.ranks ≡ ranks) × (c.pixels ≡ pixels)) (λ f. (Limits ranks pixels → ⊥) × (f ≡ Plan OffLimits)) }
    {
        if !(1..=32).contains(&ranks) || !(1..=1024).contains(&pixels) {
            return Err(Fault::Plan {
                ground: Ground::OffLimits,
            });
        }
        Ok(Counts { ranks, pixels })
    }

    // Refuses a rank that is none of them.
    pub(crate) fn check(&self, rank: u32) -> Result<(), Fault>
        ensures { MatchResult result (λ _. rank < self.now.ranks) (λ f. (self.now.ranks ≤ rank) × (f ≡ outside rank)) }
    {
        if rank >= self.ranks {
            return Err(Fault::Call {
                ground: Ground::Outside,
                rank,
            });
        }
        Ok(())
    }

    // All pixels of the tile.
    pub(crate) fn tile(&self) -> Run
        ensures { result ≡ run_of 0 self.now.pixels }
    {
        Run {
            start: 0,
            len: self.pixels,
        }
    }
}

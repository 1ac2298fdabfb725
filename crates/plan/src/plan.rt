// What a plan answers.
ghost use Rattle.std.specs.Prelude.{◌≡◌};
ghost use Rattle.plan.specs.Answers.{group_told, span_told};
ghost use Rattle.plan.specs.Model.{PlanModel};

use crate::runs::Run;
use tile::fault::Fault;

// For each round and rank, who merges and what the rank then holds.
pub trait Plan {
    // The groups and spans, with the proofs of the five rules.
    ghost model: { Self → PlanModel };

    // How many ranks there are.
    fn ranks(&self) -> u32
        ensures { result ≡ (model self.now).ranks };

    // How many pixels the tile has.
    fn pixels(&self) -> u32
        ensures { result ≡ (model self.now).pixels };

    // How many rounds there are, round 0 left out.
    fn rounds(&self) -> u32
        ensures { result ≡ (model self.now).rounds };

    // The ranks that have merged with the rank by the round; a round above the last answers as the last.
    fn group(&self, round: u32, rank: u32) -> Result<Run, Fault>
        ensures { result ≡ group_told (model self.now) round rank };

    // The pixels that the rank holds in the round; a round above the last answers as the last.
    fn span(&self, round: u32, rank: u32) -> Result<Run, Fault>
        ensures { result ≡ span_told (model self.now) round rank };
}

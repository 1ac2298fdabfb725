// The 2-3 plan's answers, and its maker.
ghost use Rattle.std.specs.Prelude.{◌≡◌, ◌^◌, ◌<◌, ◌≤◌};
ghost use Rattle.plan.specs.Answers.{round_of};
ghost use Rattle.plan.specs.Swap.{group_by};
ghost use Rattle.plan.specs.Makers.{swap_of, SwapMade};

use crate::counts::Counts;
use crate::plan::Plan;
use crate::runs::Run;
use crate::swap::SwapPlan;
use tile::fault::Fault;

impl SwapPlan {
    // The plan for these counts; refused where one is outside its limits.
    pub fn new(ranks: u32, pixels: u32) -> Result<SwapPlan, Fault>
        ensures { SwapMade ranks pixels result }
    {
        let counts = Counts::new(ranks, pixels)?;
        Ok(SwapPlan { counts })
    }

    // How many ranks a group has in the round, but for the last group.
    fn width_at(&self, round: u32) -> u32
        ensures is { result ≡ 2 ^ round_of (swap_of self.now) round }
        ensures fits { (0 < result) × (result ≤ self.now.counts.ranks) }
    {
        1 << round.min(self.rounds())
    }

    // The group of the rank where groups have `width` ranks and the last one also what is left over.
    fn group_by(&self, width: u32, rank: u32) -> Run
        requires { (0 < width) × (width ≤ self.now.counts.ranks) × (rank < self.now.counts.ranks) }
        ensures { result ≡ group_by self.now.counts.ranks width rank }
    {
        let groups = self.counts.ranks / width;
        let index = (rank / width).min(groups - 1);
        let start = index * width;
        let len = if index + 1 == groups {
            self.counts.ranks - start
        } else {
            width
        };
        Run { start, len }
    }
}

// What the plan tells.
impl Plan for SwapPlan {
    ghost model = { swap_of };

    fn ranks(&self) -> u32 {
        self.counts.ranks
    }

    fn pixels(&self) -> u32 {
        self.counts.pixels
    }

    // The largest t with 2^t at most the ranks.
    fn rounds(&self) -> u32 {
        self.counts.ranks.ilog2()
    }

    fn group(&self, round: u32, rank: u32) -> Result<Run, Fault> {
        self.counts.check(rank)?;
        Ok(self.group_by(self.width_at(round), rank))
    }

    fn span(&self, round: u32, rank: u32) -> Result<Run, Fault> {
        let group = self.group(round, rank)?;
        Ok(self.counts.tile().part(group.len, rank - group.start))
    }
}

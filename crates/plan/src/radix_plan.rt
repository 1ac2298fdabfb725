// The radix plan's answers, and its maker.
ghost use Rattle.std.specs.Prelude.{◌≡◌, ◌<◌, take};
ghost use Rattle.plan.specs.Answers.{round_of};
ghost use Rattle.plan.specs.Factors.{factor, width};
ghost use Rattle.plan.specs.Radix.{span};
ghost use Rattle.plan.specs.Makers.{factors_of, radix_of, RadixMade};

use crate::counts::Counts;
use crate::factors::Factors;
use crate::plan::Plan;
use crate::radix::RadixPlan;
use crate::runs::Run;
use tile::fault::Fault;

impl RadixPlan {
    // The plan with these factors; refused where a count is outside its limits, then where the factors do not suit.
    pub fn new(ranks: u32, pixels: u32, factors: &[u32]) -> Result<RadixPlan, Fault>
        ensures { RadixMade ranks pixels factors.now result }
    {
        let counts = Counts::new(ranks, pixels)?;
        let factors = Factors::new(ranks, factors)?;
        Ok(RadixPlan { counts, factors })
    }

    // The factors of the rounds up to this one.
    fn up_to(&self, round: u32) -> &[u32]
        ensures { result.now ≡ take (round_of (radix_of self.now) round) (factors_of self.now) }
    {
        let all = self.factors.as_slice();
        &all[..all.len().min(round as usize)]
    }

    // How many ranks a group has in the round.
    fn width_at(&self, round: u32) -> u32
        ensures is { result ≡ width (factor (factors_of self.now)) (round_of (radix_of self.now) round) }
        ensures some { 0 < result }
    {
        self.up_to(round).iter().product()
    }

    // What the rank holds in the round.
    fn span_at(&self, round: u32, rank: u32) -> Run
        ensures { result ≡ span (factor (factors_of self.now)) self.now.counts.pixels (round_of (radix_of self.now) round) rank }
    {
        let mut span = self.counts.tile();
        let mut rest = rank;
        for parts in self.up_to(round) {
            span = span.part(*parts, rest % *parts);
            rest /= *parts;
        }
        span
    }
}

// What the plan tells.
impl Plan for RadixPlan {
    ghost model = { radix_of };

    fn ranks(&self) -> u32 {
        self.counts.ranks
    }

    fn pixels(&self) -> u32 {
        self.counts.pixels
    }

    fn rounds(&self) -> u32 {
        self.factors.as_slice().len() as u32
    }

    fn group(&self, round: u32, rank: u32) -> Result<Run, Fault> {
        self.counts.check(rank)?;
        let len = self.width_at(round);
        Ok(Run {
            start: rank / len * len,
            len,
        })
    }

    fn span(&self, round: u32, rank: u32) -> Result<Run, Fault> {
        self.counts.check(rank)?;
        Ok(self.span_at(round, rank))
    }
}

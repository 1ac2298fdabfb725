// The pieces that ranks exchange.
ghost use Rattle.std.specs.Prelude.{◌≡◌};
ghost use Rattle.plan.specs.Answers.{piece_told};
ghost use Rattle.plan.specs.Runs.{common};

use crate::plan::Plan;
use crate::runs::Run;
use tile::fault::Fault;

// The common part of two runs.
pub fn common(a: Run, b: Run) -> Run
    ensures { result ≡ common a b }
{
    let start = a.start.max(b.start);
    let end = a.end().min(b.end());
    let len = end.saturating_sub(u64::from(start)) as u32;
    Run { start, len }
}

// What `sender` has, going on from `round`, of the new span of `receiver`.
pub fn piece<P: Plan>(plan: &P, round: u32, sender: u32, receiver: u32) -> Result<Run, Fault>
    ensures { result ≡ piece_told (P.model plan.now) round sender receiver }
{
    let old = plan.span(round, sender)?;
    let new = plan.span(round.saturating_add(1), receiver)?;
    Ok(common(old, new))
}

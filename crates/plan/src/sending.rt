// What ranks send.
ghost use Rattle.std.specs.Prelude.{◌≡◌};
ghost use Rattle.plan.specs.Answers.{told};
ghost use Rattle.plan.specs.Amounts.{sent};

use crate::pieces::common;
use crate::plan::Plan;
use tile::fault::Fault;

// How many pixels the rank sends over all rounds.
pub fn sends<P: Plan>(plan: &P, rank: u32) -> Result<u32, Fault>
    ensures { result ≡ told (P.model plan.now) rank (sent (P.model plan.now) rank) }
{
    let mut old = plan.span(0, rank)?;
    let mut sum = 0;
    for round in 0..plan.rounds() {
        let new = plan.span(round + 1, rank)?;
        sum += old.len - common(old, new).len;
        old = new;
    }
    Ok(sum)
}

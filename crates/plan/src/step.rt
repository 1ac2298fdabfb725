// Going on from one round of a plan to the next.
ghost use Rattle.std.specs.Prelude.{◌<◌};

use crate::plan::Plan;

// The going on from `round` to the round after it.
#[derive(Drop)]
pub(crate) struct Step<'a, P: Plan> {
    pub plan: &'a P,
    pub round: u32,
    ghost early: { round < (P.model plan.now).rounds },
}

// The radix plan.
ghost use Rattle.std.specs.Prelude.{take};
ghost use Rattle.plan.specs.Factors.{Suits};

use crate::counts::Counts;
use crate::factors::Factors;

// In each round as many neighbouring groups merge as that round's factor says.
#[derive(Clone, Copy)]
pub struct RadixPlan {
    pub(crate) counts: Counts,
    pub(crate) factors: Factors,
    ghost suits: { Suits counts.ranks (take factors.count factors.values) },
}

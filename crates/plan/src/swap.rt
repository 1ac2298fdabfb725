// The 2-3 plan.
use crate::counts::Counts;

// In each round groups merge by two, and by three where one is left over.
#[derive(Clone, Copy)]
pub struct SwapPlan {
    pub(crate) counts: Counts,
}

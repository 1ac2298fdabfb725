// The factors of a radix plan.
ghost use Rattle.std.specs.Prelude.{◌≡◌, ◌≤◌, ◌↔◌, IsTrue, MatchResult, take};
ghost use Rattle.tile.specs.declared.fault.Fault.TheVariants.{Plan};
ghost use Rattle.tile.specs.declared.fault.Ground.TheVariants.{Unsuited};
ghost use Rattle.plan.specs.Factors.{Each, Suits};

use tile::fault::{Fault, Ground};

// At most five factors: the first `count` of `values`.
// Stays: a plan is `Copy` and has no heap, and the kit's `ArrayVec` is not `Copy`.
#[derive(Clone, Copy)]
pub(crate) struct Factors {
    values: [u32; 5],
    count: usize,
    ghost few: { count ≤ 5 },
}

// Whether each factor is 2 to 32.
fn each_fits(factors: &[u32]) -> bool
    ensures { IsTrue result ↔ Each factors.now }
{
    factors.iter().all(|k| (2..=32).contains(k))
}

// Whether these are factors for so many ranks.
fn suit(ranks: u32, factors: &[u32]) -> bool
    ensures { IsTrue result ↔ Suits ranks factors.now }
{
    factors.len() <= 5 && each_fits(factors) && factors.iter().product::<u32>() == ranks
}

impl Factors {
    // Refuses factors that do not suit so many ranks.
    pub(crate) fn new(ranks: u32, factors: &[u32]) -> Result<Factors, Fault>
        ensures { MatchResult result (λ f. (take f.count f.values ≡ factors.now) × Suits ranks factors.now) (λ f. (Suits ranks factors.now → ⊥) × (f ≡ Plan Unsuited)) }
    {
        if !suit(ranks, factors) {
            return Err(Fault::Plan {
                ground: Ground::Unsuited,
            });
        }
        let count = factors.len();
        let mut values = [1; 5];
        values[..count].copy_from_slice(factors);
        Ok(Factors { values, count })
    }

    // The factors as a slice.
    pub(crate) fn as_slice(&self) -> &[u32]
        ensures { result.now ≡ take self.now.count self.now.values }
    {
        &self.values[..self.count]
    }
}

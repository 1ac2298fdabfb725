// The transfer list of a plan.
ghost use Rattle.std.specs.Prelude.{◌≡◌, ◌+◌, ◌<◌, ◌≤◌, MatchResult};
ghost use Rattle.std.specs.Option.{option_to_list};
ghost use Rattle.plan.specs.Order.{between, from, in_round, Adds, Wrote};
ghost use Rattle.plan.specs.Transfers.{Listed};

use crate::listing::Listing;
use crate::pieces::piece;
use crate::plan::Plan;
use crate::step::Step;
use crate::transfer::Transfer;
use tile::fault::{Fault, Ground, unranked};

impl<P: Plan> Step<'_, P> {
    // What `sender` sends to `receiver`, if anything.
    fn transfer(&self, sender: u32, receiver: u32) -> Result<Option<Transfer>, Fault>
        ensures { let m = P.model self.now.plan.now in MatchResult result (λ o. option_to_list o ≡ between m self.now.round sender receiver) (λ _. (sender < m.ranks) × (receiver < m.ranks) → ⊥) }
    {
        let piece = piece(self.plan, self.round, sender, receiver)?;
        if sender == receiver || piece.len == 0 {
            return Ok(None);
        }
        Ok(Some(Transfer {
            round: self.round + 1,
            sender,
            receiver,
            piece,
        }))
    }

    // Lists all that `sender` sends.
    fn list_from(&self, sender: u32, listing: &mut Listing<'_>) -> Result<(), Fault>
        requires { listing.old.count + 32 ≤ 32768 }
        ensures { let m = P.model self.now.plan.now in MatchResult result (λ _. Adds (from m self.now.round sender) listing.old listing.new) (λ _. m.ranks ≤ sender) }
    {
        let group = self.plan.group(self.round + 1, sender)?;
        for receiver in group.start..group.start + group.len {
            if let Some(transfer) = self.transfer(sender, receiver)? {
                listing.put(transfer);
            }
        }
        Ok(())
    }

    // Lists all that ranks send.
    fn list_round(&self, listing: &mut Listing<'_>) -> Result<(), Fault>
        requires { listing.old.count + 1024 ≤ 32768 }
        ensures { MatchResult result (λ _. Adds (in_round (P.model self.now.plan.now) self.now.round) listing.old listing.new) (λ _. ⊥) }
    {
        for sender in 0..self.plan.ranks() {
            self.list_from(sender, listing)?;
        }
        Ok(())
    }
}

// Lists the transfers of all rounds, and answers how many they are.
// Stays: any plan's queries can refuse, so a refusal goes on by `?`, though the clauses say that none comes.
fn list_rounds<P: Plan>(plan: &P, area: &mut [Transfer]) -> Result<usize, Fault>
    ensures { MatchResult result (Wrote (P.model plan.now) area.old area.new) (λ _. ⊥) }
{
    let mut listing = Listing { area, count: 0 };
    for round in 0..plan.rounds() {
        let step = Step { plan, round };
        step.list_round(&mut listing)?;
    }
    Ok(listing.count)
}

// Writes every transfer once into the first entries of the area, in no promised order, and answers how many they are;
// refused where the area has fewer entries.
pub fn list_transfers<P: Plan>(plan: &P, area: &mut [Transfer]) -> Result<usize, Fault>
    ensures { Listed (P.model plan.now) area.old area.new result }
{
    if list_rounds(plan, &mut [])? > area.len() {
        return Err(unranked(Ground::TooShort));
    }
    list_rounds(plan, area)
}

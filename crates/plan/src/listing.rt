// Where transfers are listed.
ghost use Rattle.std.specs.Prelude.{◌≡◌, ◌<◌, [], ◌∷◌};
ghost use Rattle.plan.specs.Order.{Adds};

use crate::transfer::Transfer;

// An area for transfers, and how many were put there, those without room counted too.
// Stays: the caller lends the area, and the count goes on where the area ends.
#[derive(Drop)]
pub(crate) struct Listing<'a> {
    pub area: &'a mut [Transfer],
    pub count: usize,
}

impl Listing<'_> {
    // Puts the transfer behind the earlier ones, if the area has room.
    // Stays: this and its callers ask for room for 1, 32 and 1,024 more transfers to be counted, so no one fact of the type says it.
    pub(crate) fn put(&mut self, transfer: Transfer)
        requires { self.old.count < 32768 }
        ensures { Adds (transfer ∷ []) self.old self.new }
    {
        if self.count < self.area.len() {
            self.area[self.count] = transfer;
        }
        self.count += 1;
    }
}

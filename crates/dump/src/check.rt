// Whether a whole dump has the form, before any of it is used.
ghost use Rattle.std.specs.Result.{MatchResult};
ghost use Rattle.dump.specs.Phases.{heading};
ghost use Rattle.dump.specs.Reading.{Accepted, Refused, holding};

use crate::stage::Head;
use crate::walk::Walk;
use tile::fault::Fault;

// What the head tells of a dump that has the form, or the fault of the first faulty record.
pub(crate) fn check(bytes: &[u8]) -> Result<Head, Fault>
    ensures { MatchResult result (λ h. Accepted bytes.now (holding (heading h) bytes.now)) (λ f. Refused bytes.now f) }
{
    let mut walk = Walk::new(bytes);
    'records: loop {
        if let Some(head) = walk.ended() {
            return Ok(head);
        }
        if let Err(cause) = walk.step() {
            return Err(walk.fault(cause));
        }
    }
}

// A whole dump.
ghost use Rattle.std.specs.Result.{MatchResult};
ghost use Rattle.dump.specs.Reading.{Accepted, Refused, content};

use crate::check::check;
use crate::pixels::Pixels;
use crate::stage::Head;
use tile::fault::Fault;

// A dump that has the form: what its head tells, and its pixels.
#[derive(Drop)]
pub struct Dump<'a> {
    pub head: Head,
    pub pixels: Pixels<'a>,
}

// The dump in these bytes, accepted exactly when they have the form; or the fault of the first faulty record.
pub fn read_dump(bytes: &[u8]) -> Result<Dump, Fault>
    ensures { MatchResult result (λ d. Accepted bytes.now (content d)) (λ f. Refused bytes.now f) }
{
    let head = check(bytes)?;
    Ok(Dump {
        head,
        pixels: Pixels::new(bytes),
    })
}

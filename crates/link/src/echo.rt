// Code over any link.
ghost use Rattle.link.specs.Echo.{Echo};

use super::Link;
use super::pair::Pair;
use tile::fault::Fault;

// Sends a message, reads it back and clears its box; answers its length.
pub fn echo<L: Link>(
    link: &mut L,
    pair: Pair,
    words: &[u32],
    area: &mut [u32],
) -> Result<usize, Fault>
    ensures { Echo (L.model link.old) (L.model link.new) pair.from pair.to words.now area.old area.new result }
{
    link.send(pair, words)?;
    let count = link.read(pair, area)?;
    link.clear(pair)?;
    Ok(count)
}

// The entries of a line in memory: the number of a box, the length of its message, and the message.
ghost use Rattle.std.specs.Prelude.{◌≡◌, ◌+◌, ◌≤◌, ◌∷◌, ◌++◌, true, length, drop};
ghost use Rattle.link.specs.Model.{is_pair};
ghost use Rattle.boxes.specs.Lines.{box_number, entries, Spelt, place};

use super::messages::write_message;
use link::pair::Pair;

// The number of the box of a pair.
pub(super) fn box_number(ranks: u32, pair: Pair) -> u32
    requires few { ranks ≤ 32 }
    requires pair { is_pair ranks pair.from pair.to ≡ true }
    ensures { result ≡ box_number ranks pair.from pair.to }
{
    let Pair { from, to } = pair;
    let row = from * (ranks - 1);
    if to < from { row + to } else { row + (to - 1) }
}

// Where the entry of a box starts, if there is one.
// Stays: the walk by a place, since the place is the answer; an iterator would yield places too, and need the spelling of what is left as an invariant.
pub(super) fn find(line: &[u32], wanted: u32) -> Option<usize>
    requires { Spelt line.now }
    ensures { result ≡ place wanted (entries line.now) }
{
    let mut at = 0;
    while at < line.len() {
        if line[at] == wanted {
            return Some(at);
        }
        at += 2 + line[at + 1] as usize;
    }
    None
}

// Writes the entry of a box first into `area`.
pub(super) fn write_entry(area: &mut [u32], number: u32, message: &[u32])
    requires short { length message.now ≤ 5200 }
    requires room { length message.now + 2 ≤ length area.old }
    ensures { area.new ≡ number ∷ length message.now ∷ message.now ++ drop (length message.now + 2) area.old }
{
    area[0] = number;
    write_message(&mut area[1..], message);
}

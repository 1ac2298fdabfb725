// What a slot of a round does.
use plan::runs::Run;

// Nothing, or a piece that is sent to a rank, joined from the rank's own row, or taken from a rank.
#[derive(Clone, Copy)]
pub enum Move {
    Pass,
    Send(u32, Run),
    Own(Run),
    Take(u32, Run),
}

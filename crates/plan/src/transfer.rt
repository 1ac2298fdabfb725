// One entry of the transfer list.
use crate::runs::Run;

// In going to round `round`, `sender` sends `receiver` the piece.
#[derive(Clone, Copy, PartialEq, Eq, Debug)]
pub struct Transfer {
    pub round: u32,
    pub sender: u32,
    pub receiver: u32,
    pub piece: Run,
}

// Runs and transfers as text.
ghost use Rattle.std.specs.Prelude.{Some};
ghost use Rattle.plan.specs.Texts.{run_text, transfer_text};

use crate::runs::Run;
use crate::transfer::Transfer;
use std::fmt;

impl fmt::Display for Run {
    ghost output = { λ run. Some (run_text run) };

    fn fmt<W: fmt::Write>(&self, f: &mut fmt::Formatter<W>) -> fmt::Result {
        let Run { start, len } = *self;
        write!(f, "{start}+{len}")
    }
}

impl fmt::Display for Transfer {
    ghost output = { λ transfer. Some (transfer_text transfer) };

    fn fmt<W: fmt::Write>(&self, f: &mut fmt::Formatter<W>) -> fmt::Result {
        let Transfer {
            round,
            sender,
            receiver,
            piece,
        } = *self;
        write!(f, "round {round}: {sender} -> {receiver} {piece}")
    }
}

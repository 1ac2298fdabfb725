// The lines that tell a plan.
ghost use Rattle.std.specs.Prelude.{Some};
ghost use Rattle.chart.specs.Lines.{plan_line, rank_line, sends_line, transfer_line};

use plan::runs::Run;
use plan::transfer::Transfer;
use std::fmt;

// Ranks, pixels and rounds.
#[derive(Clone, Copy, PartialEq, Eq, Debug)]
pub struct PlanLine {
    pub ranks: u32,
    pub pixels: u32,
    pub rounds: u32,
}

impl fmt::Display for PlanLine {
    ghost output = { λ l. Some (plan_line l.ranks l.pixels l.rounds) };

    fn fmt<W: fmt::Write>(&self, f: &mut fmt::Formatter<W>) -> fmt::Result {
        let PlanLine {
            ranks,
            pixels,
            rounds,
        } = *self;
        writeln!(f, "plan: ranks {ranks}, pixels {pixels}, rounds {rounds}")
    }
}

// A rank's group and span in a round.
#[derive(Clone, Copy, PartialEq, Eq, Debug)]
pub struct RankLine {
    pub round: u32,
    pub rank: u32,
    pub group: Run,
    pub span: Run,
}

impl fmt::Display for RankLine {
    ghost output = { λ l. Some (rank_line l.round l.rank l.group l.span) };

    fn fmt<W: fmt::Write>(&self, f: &mut fmt::Formatter<W>) -> fmt::Result {
        let RankLine {
            round,
            rank,
            group,
            span,
        } = *self;
        writeln!(f, "round {round} rank {rank}: group {group} span {span}")
    }
}

// A piece that is sent.
#[derive(Clone, Copy, PartialEq, Eq, Debug)]
pub struct TransferLine {
    pub transfer: Transfer,
}

impl fmt::Display for TransferLine {
    ghost output = { λ l. Some (transfer_line l.transfer) };

    fn fmt<W: fmt::Write>(&self, f: &mut fmt::Formatter<W>) -> fmt::Result {
        let TransferLine { transfer } = *self;
        writeln!(f, "transfer {transfer}")
    }
}

// How many pixels a rank sends in all.
#[derive(Clone, Copy, PartialEq, Eq, Debug)]
pub struct SendsLine {
    pub rank: u32,
    pub pixels: u32,
}

impl fmt::Display for SendsLine {
    ghost output = { λ l. Some (sends_line l.rank l.pixels) };

    fn fmt<W: fmt::Write>(&self, f: &mut fmt::Formatter<W>) -> fmt::Result {
        let SendsLine { rank, pixels } = *self;
        writeln!(f, "rank {rank} sends {pixels}")
    }
}

// Shows plans as lines or as a picture.
ghost use Rattle.std.specs.Prelude.{OnOk, IfOk, IfSome, ◌≤◌, List, ℕ, map, string_bytes};
ghost use Rattle.std.specs.List.{flat_map};
ghost use Rattle.std.specs.Io.KnownBytes.{Appends};
ghost use Rattle.chart.specs.Lines.{transfer_line};
ghost use Rattle.commands.specs.Lines.{Answers};
ghost use Rattle.commands.specs.Plans.{PlanReply, Shows, Tells, column, form_in, line_in, rank_names, round_lines, sends_lines, transfer_stroke};
ghost use Rattle.commands.specs.declared.form.Form.TheVariants.{Lines, Picture};
ghost use Rattle.plan.specs.Transfers.{Lists};

use crate::form::Form;
use chart::lines::{PlanLine, RankLine, SendsLine, TransferLine};
use chart::picture::{
    Bar, COLUMN, EDGE, Frame, Label, PictureHead, Point, ROW, Stroke, across, column_left, row_top,
};
use plan::plan::Plan;
use plan::radix::RadixPlan;
use plan::runs::Run;
use plan::sending::sends;
use plan::swap::SwapPlan;
use plan::transfer::Transfer;
use plan::transfers::list_transfers;
use request::plans::{Maker, plan_request};
use std::alloc::Global;
use std::io::{BufRead, Write};
use std::{fmt, io};
use tile::fault::Fault;

// An entry of the transfer list before it is written.
// Stays: the list is written into memory that is brought, so each entry has a value before.
const UNWRITTEN: Transfer = Transfer {
    round: 0,
    sender: 0,
    receiver: 0,
    piece: Run { start: 0, len: 0 },
};

// The transfers of a plan, in the order of its list.
fn transfers_of<P: Plan>(heap: Global, plan: &P) -> anyhow::Result<Vec<Transfer>>
    ensures { IfOk result (λ v. Lists (P.model plan.now) v.items) }
{
    let mut area = vec![in heap; UNWRITTEN; plan.rounds() as usize * 1024]?;
    let count = list_transfers(plan, area.as_mut_slice())?;
    area.truncate(count);
    Ok(area)
}

// Writes a line of an answer, and writes it out.
fn put<T: fmt::Display + Drop, W: Write>(output: &mut W, line: T) -> io::Result<()>
    ensures bytes { OnOk result (IfSome (T.output line) (Appends (W.contents output.old) (W.contents output.new))) }
{
    write!(output, "{line}")?;
    output.flush()
}

// A line for each rank in a round.
// Stays: a plan and where it is written go side by side, as in any `write`, and a struct of the two is no plainer.
fn write_round<P: Plan, W: Write>(plan: &P, output: &mut W, round: u32) -> anyhow::Result<()>
    requires { round ≤ (P.model plan.now).rounds }
    ensures { OnOk result (Appends (W.contents output.old) (W.contents output.new) (round_lines (P.model plan.now) round)) }
{
    for rank in 0..plan.ranks() {
        let group = plan.group(round, rank)?;
        let span = plan.span(round, rank)?;
        put(
            output,
            RankLine {
                round,
                rank,
                group,
                span,
            },
        )?;
    }
    Ok(())
}

// What each rank sends.
fn write_sends<P: Plan, W: Write>(plan: &P, output: &mut W) -> anyhow::Result<()>
    ensures { OnOk result (Appends (W.contents output.old) (W.contents output.new) (sends_lines (P.model plan.now))) }
{
    for rank in 0..plan.ranks() {
        let pixels = sends(plan, rank)?;
        put(output, SendsLine { rank, pixels })?;
    }
    Ok(())
}

// A line for each transfer.
fn write_transfers<W: Write>(transfers: &[Transfer], output: &mut W) -> io::Result<()>
    ensures { OnOk result (Appends (W.contents output.old) (W.contents output.new) (flat_map transfer_line transfers.now)) }
{
    for transfer in transfers {
        put(
            output,
            TransferLine {
                transfer: *transfer,
            },
        )?;
    }
    Ok(())
}

// The plan as lines.
fn write_lines<P: Plan, W: Write>(heap: Global, plan: &P, output: &mut W) -> anyhow::Result<()>
    ensures { OnOk result ((text : List ℕ) × Shows (P.model plan.now) Lines text × Appends (W.contents output.old) (W.contents output.new) text) }
{
    let rounds = plan.rounds();
    put(
        output,
        PlanLine {
            ranks: plan.ranks(),
            pixels: plan.pixels(),
            rounds,
        },
    )?;
    for round in 0..=rounds {
        write_round(plan, output, round)?;
    }
    let transfers = transfers_of(heap, plan)?;
    write_transfers(transfers.as_slice(), output)?;
    write_sends(plan, output)?;
    Ok(())
}

// The names of the ranks before their rows.
fn draw_ranks<P: Plan, W: Write>(plan: &P, output: &mut W) -> io::Result<()>
    ensures { OnOk result (Appends (W.contents output.old) (W.contents output.new) (rank_names (P.model plan.now))) }
{
    for rank in 0..plan.ranks() {
        let start = Point {
            x: 14,
            y: row_top(rank) + 11,
        };
        put(
            output,
            Label {
                start,
                word: "rank",
                number: rank,
            },
        )?;
    }
    Ok(())
}

// A round's column, with its name.
fn draw_column<P: Plan, W: Write>(plan: &P, output: &mut W, round: u32) -> anyhow::Result<()>
    requires { round ≤ (P.model plan.now).rounds }
    ensures { OnOk result (Appends (W.contents output.old) (W.contents output.new) (column (P.model plan.now) round)) }
{
    let (left, pixels) = (column_left(round), plan.pixels());
    put(
        output,
        Label {
            start: Point { x: left, y: 24 },
            word: "round",
            number: round,
        },
    )?;
    for rank in 0..plan.ranks() {
        let span = plan.span(round, rank)?;
        let (x, y) = (left + across(span.start, pixels), row_top(rank));
        put(
            output,
            Frame {
                corner: Point { x: left, y },
            },
        )?;
        put(
            output,
            Bar {
                corner: Point { x, y },
                width: across(span.len, pixels),
            },
        )?;
    }
    Ok(())
}

// A line for each transfer, from the column of its old round to that of its new one.
// Stays: beside `write_transfers`, since one loop with a closure would take the closure's text as a ghost argument too.
fn draw_transfers<W: Write>(transfers: &[Transfer], output: &mut W) -> io::Result<()>
    ensures { OnOk result (Appends (W.contents output.old) (W.contents output.new) (flat_map transfer_stroke transfers.now)) }
{
    for transfer in transfers {
        let start = Point {
            x: column_left(transfer.round.saturating_sub(1)) + COLUMN,
            y: row_top(transfer.sender) + ROW / 2,
        };
        let end = Point {
            x: column_left(transfer.round),
            y: row_top(transfer.receiver) + ROW / 2,
        };
        put(output, Stroke { start, end })?;
    }
    Ok(())
}

// The plan as a picture.
fn write_picture<P: Plan, W: Write>(heap: Global, plan: &P, output: &mut W) -> anyhow::Result<()>
    ensures { OnOk result ((text : List ℕ) × Shows (P.model plan.now) Picture text × Appends (W.contents output.old) (W.contents output.new) text) }
{
    let rounds = plan.rounds();
    put(
        output,
        PictureHead {
            width: column_left(rounds) + COLUMN + EDGE,
            height: row_top(plan.ranks()) + ROW,
        },
    )?;
    draw_ranks(plan, output)?;
    for round in 0..=rounds {
        draw_column(plan, output, round)?;
    }
    let transfers = transfers_of(heap, plan)?;
    draw_transfers(transfers.as_slice(), output)?;
    output.write_all(b"</svg>\n")?;
    Ok(())
}

// Shows the plan that was made, or tells the fault of its maker.
fn tell<P: Plan + Drop, W: Write>(
    heap: Global,
    form: Form,
    made: Result<P, Fault>,
    output: &mut W,
) -> anyhow::Result<()>
    ensures { OnOk result ((text : List ℕ) × Tells P.model form made text × Appends (W.contents output.old) (W.contents output.new) text) }
{
    // Stays: no closure is generic over plans, so how one is shown is told by an enum.
    match (made, form) {
        (Ok(plan), Form::Lines) => write_lines(heap, &plan, output),
        (Ok(plan), Form::Picture) => write_picture(heap, &plan, output),
        (Err(fault), _) => Ok(writeln!(output, "{fault}")?),
    }
}

// Answers a request for a plan.
fn answer<W: Write>(heap: Global, form: Form, line: &[u8], output: &mut W) -> anyhow::Result<()>
    ensures { OnOk result ((text : List ℕ) × PlanReply form line.now text × Appends (W.contents output.old) (W.contents output.new) text) }
{
    if let Some(asked) = plan_request(heap, line)? {
        match (asked.call, asked.numbers.as_slice()) {
            (Maker::Swap, [ranks, pixels]) => {
                return tell(heap, form, SwapPlan::new(*ranks, *pixels), output);
            }
            (Maker::Radix, [ranks, pixels, factors @ ..]) => {
                return tell(heap, form, RadixPlan::new(*ranks, *pixels, factors), output);
            }
            _ => {}
        }
    }
    Ok(output.write_all(b"no plan request: write 'swap R P' or 'radix R P K..'\n")?)
}

// Answers each line of the input that asks for a plan.
// Stays: beside `inspect_lines`, since one loop with a closure would take the closure's relation as a ghost argument too.
pub fn plan_lines<R: BufRead + Drop, W: Write>(
    heap: Global,
    input: R,
    output: &mut W,
) -> anyhow::Result<()>
    ensures { OnOk result (Answers (PlanReply Lines) (R.remaining input) (W.contents output.old) (W.contents output.new)) }
{
    for line in input.split(heap, b'\n') {
        answer(heap, Form::Lines, line?.as_slice(), output)?;
        output.flush()?;
    }
    Ok(())
}

// Answers the words behind `plan`.
pub fn plan_words<W: Write>(heap: Global, words: &[String], output: &mut W) -> anyhow::Result<()>
    ensures { OnOk result ((text : List ℕ) × PlanReply (form_in (map string_bytes words.now)) (line_in (map string_bytes words.now)) text × Appends (W.contents output.old) (W.contents output.new) text) }
{
    let mut line = String::new(heap);
    let mut form = Form::Lines;
    for word in words {
        if word.as_str() == "--svg" {
            form = Form::Picture;
        } else {
            line.push_str(word.as_str())?;
            line.push(' ')?;
        }
    }
    answer(heap, form, line.as_bytes(), output)?;
    output.flush()?;
    Ok(())
}

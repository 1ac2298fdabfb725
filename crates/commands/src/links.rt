// Replays calls of links.
ghost use Rattle.std.specs.Prelude.{◌≡◌, ℕ, suc, ◌<◌, true, Some, IfSome, IfOk, OnOk, codes, nat_lt};
ghost use Rattle.std.specs.Io.Iter.{split_byte, split_known_bytes, pieces_left_to_read};
ghost use Rattle.std.specs.Io.KnownBytes.{Appends};
ghost use Rattle.request.specs.Requests.{told};
ghost use Rattle.commands.specs.declared.links.Next.TheVariants.{Layer};
ghost use Rattle.commands.specs.Replay.{Replays, message_text, start};
ghost use Rattle.commands.specs.Steps.{Awaits, Begins, Comes, Reads, at, makes, opens, outcome};

use boxes::cell::CellLink;
use boxes::line::LineLink;
use link::Link;
use link::pair::Pair;
use link::trim::Trim;
use request::links::{LinkCall, LinkRequest, link_request};
use std::alloc::Global;
use std::fmt;
use std::io::{BufRead, Split, Write};
use std::marker::PhantomData;
use tile::fault::Fault;

// The longest area that a read can need.
const AREA: u32 = 5200;

// What is told of a line that asks for no call.
const NO_CALL: &str = "no link request: see 'tilemerge help'";

// How a link that is to be made keeps its boxes.
#[derive(Clone, Copy)]
enum Boxes {
    Cells,
    Line,
}

// A link that is to be made.
#[derive(Clone, Copy)]
struct Opening {
    boxes: Boxes,
    ranks: u32,
    longest: u32,
}

impl Boxes {
    // A link of these sizes that is to be made.
    fn sized(self, ranks: u32, longest: u32) -> Opening
        ensures { (result.boxes ≡ self) × (result.ranks ≡ ranks) × (result.longest ≡ longest) }
    {
        Opening {
            boxes: self,
            ranks,
            longest,
        }
    }
}

// What is to be made next, a link or a layer on the one at hand.
#[derive(Clone, Copy)]
enum Next {
    Link(Opening),
    Layer,
}

// A message that was read.
#[derive(Clone, Copy)]
struct Message<'a>(&'a [u32]);

impl fmt::Display for Message<'_> {
    ghost output = { λ x. Some (message_text x.0.now) };

    fn fmt<W: fmt::Write>(&self, f: &mut fmt::Formatter<W>) -> fmt::Result {
        write!(f, "ok:")?;
        for word in self.0 {
            write!(f, " {word}")?;
        }
        Ok(())
    }
}

// Tells the answer to a call, or its refusal, and writes it out.
fn tell<T: fmt::Display + Drop, W: Write>(
    output: &mut W,
    answer: Result<T, Fault>,
) -> anyhow::Result<()>
    ensures { OnOk result (IfSome (outcome T.output answer) (Appends (W.contents output.old) (W.contents output.new))) }
{
    match answer {
        Ok(told) => writeln!(output, "{told}")?,
        Err(fault) => writeln!(output, "{fault}")?,
    }
    output.flush()?;
    Ok(())
}

// Tells that a call is done, or its refusal.
fn tell_done<W: Write>(output: &mut W, answer: Result<(), Fault>) -> anyhow::Result<()>
    ensures { OnOk result (IfSome (outcome (λ _. Some (codes "ok")) answer) (Appends (W.contents output.old) (W.contents output.new))) }
{
    tell(output, answer.map(|()| "ok"))
}

// Where memory comes from, and how long an area reads bring.
#[derive(Drop)]
struct Desk {
    heap: Global,
    room: u32,
}

impl Desk {
    // Reads a message and tells its words.
    fn read<L: Link, W: Write>(
        &self,
        link: &mut L,
        pair: Pair,
        output: &mut W,
    ) -> anyhow::Result<()>
        ensures { OnOk result (Reads (L.model link.old) (L.model link.new) pair.from pair.to self.now.room (W.contents output.old) (W.contents output.new)) }
    {
        let mut area = vec![in self.heap; 0; self.room.min(AREA) as usize]?;
        match link.read(pair, area.as_mut_slice()) {
            Ok(count) => tell(output, Ok(Message(&area[..count]))),
            Err(fault) => tell(output, Err::<&str, Fault>(fault)),
        }
    }

    // Makes the call that a line asks for, or answers what is to be made, which is told once it is there.
    fn call<L: Link, W: Write>(
        &mut self,
        link: &mut L,
        asked: &LinkRequest,
        more: bool,
        output: &mut W,
    ) -> anyhow::Result<Option<Next>>
        ensures lays { IfOk result (λ next. next ≡ Some Layer → more ≡ true) }
        ensures step { IfOk result (λ next. (layers : ℕ) → more ≡ nat_lt 0 layers → Comes (at (L.model link.old) layers self.old.room) (Some (told asked.now)) (at (L.model link.new) layers self.new.room) next (W.contents output.old) (W.contents output.new)) }
    {
        match (asked.call, asked.numbers.as_slice()) {
            (LinkCall::Send, &[from, to, ref words @ ..]) => {
                tell_done(output, link.send(Pair { from, to }, words))?;
            }
            (LinkCall::Read, &[from, to]) => self.read(link, Pair { from, to }, output)?,
            (LinkCall::Clear, &[from, to]) => {
                tell_done(output, link.clear(Pair { from, to }))?;
            }
            (LinkCall::Waiting, &[from, to]) => {
                let answer = link.waiting(Pair { from, to });
                tell(output, answer.map(|waits| if waits { "yes" } else { "no" }))?;
            }
            (LinkCall::Area, &[room]) => {
                self.room = room;
                tell(output, Ok("ok"))?;
            }
            (LinkCall::Trim, []) if !more => tell(output, Ok("no more than four layers"))?,
            (LinkCall::Trim, []) => return Ok(Some(Next::Layer)),
            (LinkCall::Cell, &[ranks, longest]) => {
                return Ok(Some(Next::Link(Boxes::Cells.sized(ranks, longest))));
            }
            (LinkCall::Line, &[ranks, longest]) => {
                return Ok(Some(Next::Link(Boxes::Line.sized(ranks, longest))));
            }
            _ => tell(output, Ok(NO_CALL))?,
        }
        Ok(None)
    }
}

// The lines that are still to come, and what their calls need beside the link.
#[derive(Drop)]
struct Replay<R> {
    lines: Split<R>,
    desk: Desk,
    ghost feeds: { split_byte lines ≡ 10 },
}

impl<R: BufRead + Drop> Replay<R> {
    // Makes the calls of the lines, up to one that makes a link or a layer.
    fn calls<L: Link, W: Write>(
        &mut self,
        link: &mut L,
        more: bool,
        output: &mut W,
    ) -> anyhow::Result<Option<Next>>
        ensures steps { IfOk result (λ next. (layers : ℕ) → more ≡ nat_lt 0 layers → Awaits (makes (at (L.model link.new) layers self.new.desk.room)) (at (L.model link.old) layers self.old.desk.room) next (split_known_bytes R.remaining self.old.lines) (split_known_bytes R.remaining self.new.lines) (W.contents output.old) (W.contents output.new)) }
        ensures lays { IfOk result (λ next. next ≡ Some Layer → more ≡ true) }
        ensures nearer { IfOk result (λ next. IfSome next (λ _. pieces_left_to_read self.new.lines < pieces_left_to_read self.old.lines)) }
    {
        while let Some(line) = self.lines.next() {
            let Some(asked) = link_request(self.desk.heap, line?.as_slice())? else {
                tell(output, Ok(NO_CALL))?;
                continue;
            };
            if let Some(next) = self.desk.call(link, &asked, more, output)? {
                return Ok(Some(next));
            }
        }
        Ok(None)
    }

    // Makes a link over memory of its own, tells that it is there, and makes the calls on it, up to one that makes another link.
    fn on_link<W: Write>(
        &mut self,
        opening: Opening,
        output: &mut W,
    ) -> anyhow::Result<Option<Opening>>
        ensures steps { IfOk result (λ next. Begins (opens self.new.desk.room) (opens self.old.desk.room opening) next (split_known_bytes R.remaining self.old.lines) (split_known_bytes R.remaining self.new.lines) (W.contents output.old) (W.contents output.new)) }
        ensures nearer { IfOk result (λ next. IfSome next (λ _. pieces_left_to_read self.new.lines < pieces_left_to_read self.old.lines)) }
    {
        let Opening {
            boxes,
            ranks,
            longest,
        } = opening;
        let (few, short) = (ranks.min(32) as usize, longest.min(AREA) as usize);
        let mut words = vec![in self.desk.heap; 0; few * few * (short + 2)]?;
        tell(output, Ok("ok"))?;
        let words = words.as_mut_slice();
        match boxes {
            Boxes::Cells => Four::on_pile(self, &mut CellLink::new(ranks, longest, words), output),
            Boxes::Line => Four::on_pile(self, &mut LineLink::new(ranks, longest, words), output),
        }
    }
}

// How many more layers a pile takes.
trait Layers {
    ghost left: { ℕ };

    // Makes the calls of the lines on a link and the layers laid on it, up to one that makes another link.
    fn on_pile<R: BufRead + Drop, L: Link, W: Write>(
        replay: &mut Replay<R>,
        link: &mut L,
        output: &mut W,
    ) -> anyhow::Result<Option<Opening>>
        ensures steps { IfOk result (λ next. Awaits (opens replay.new.desk.room) (at (L.model link.old) left replay.old.desk.room) next (split_known_bytes R.remaining replay.old.lines) (split_known_bytes R.remaining replay.new.lines) (W.contents output.old) (W.contents output.new)) }
        ensures nearer { IfOk result (λ next. IfSome next (λ _. pieces_left_to_read replay.new.lines < pieces_left_to_read replay.old.lines)) };
}

// A pile that takes no further layer.
struct Full;

// A pile that takes one layer more than M does.
struct OneMore<M> {
    above: PhantomData<M>,
}

// A pile is a type, so how high it can get is fixed.
type Four = OneMore<OneMore<OneMore<OneMore<Full>>>>;

impl Layers for Full {
    ghost left = { 0 };

    fn on_pile<R: BufRead + Drop, L: Link, W: Write>(
        replay: &mut Replay<R>,
        link: &mut L,
        output: &mut W,
    ) -> anyhow::Result<Option<Opening>> {
        match replay.calls(link, false, output)? {
            Some(Next::Link(opening)) => Ok(Some(opening)),
            Some(Next::Layer) | None => Ok(None),
        }
    }
}

impl<M: Layers> Layers for OneMore<M> {
    ghost left = { suc M.left };

    fn on_pile<R: BufRead + Drop, L: Link, W: Write>(
        replay: &mut Replay<R>,
        link: &mut L,
        output: &mut W,
    ) -> anyhow::Result<Option<Opening>> {
        match replay.calls(link, true, output)? {
            Some(Next::Link(opening)) => Ok(Some(opening)),
            Some(Next::Layer) => {
                tell(output, Ok("ok"))?;
                M::on_pile(replay, &mut Trim::new(link), output)
            }
            None => Ok(None),
        }
    }
}

// Replays the calls of the input, which may make several links one after another.
pub fn link_lines<R: BufRead + Drop, W: Write>(
    heap: Global,
    input: R,
    output: &mut W,
) -> anyhow::Result<()>
    ensures { OnOk result (Replays start (R.remaining input) (W.contents output.old) (W.contents output.new)) }
{
    let mut replay = Replay {
        lines: input.split(heap, b'\n'),
        desk: Desk { heap, room: AREA },
    };
    let mut next = Four::on_pile(&mut replay, &mut CellLink::new(0, 0, &mut []), output)?;
    while let Some(opening) = next {
        next = replay.on_link(opening, output)?;
    }
    Ok(())
}

// The parts of a plan's picture in SVG: a column for each round, a row for each rank, a bar for each span, a line for each transfer.
ghost use Rattle.std.specs.Prelude.{◌≡◌, Some};
ghost use Rattle.chart.specs.Picture.{across, bar, column_left, frame, label, picture_head, row_top, stroke};

use std::fmt;

// How wide a column is.
pub const COLUMN: u64 = 160;

// How far each column begins behind the one before.
const COLUMN_STEP: u64 = 260;

// How high a row is.
pub const ROW: u64 = 14;

// How far each row begins below the one before.
const ROW_STEP: u64 = 24;

// What is left free at the picture's edges.
pub const EDGE: u64 = 70;

// What is left free above the first row.
const TOP: u64 = 40;

// Where the column of a round begins.
pub fn column_left(round: u32) -> u64
    ensures { result ≡ column_left round }
{
    EDGE + u64::from(round) * COLUMN_STEP
}

// Where the row of a rank begins.
pub fn row_top(rank: u32) -> u64
    ensures { result ≡ row_top rank }
{
    TOP + u64::from(rank) * ROW_STEP
}

// How far into a column a pixel lies.
pub fn across(pixel: u32, pixels: u32) -> u64
    ensures { result ≡ across pixel pixels }
{
    u64::from(pixel) * COLUMN / u64::from(pixels.max(1))
}

// A place in the picture, from its upper left corner.
#[derive(Clone, Copy, PartialEq, Eq, Debug)]
pub struct Point {
    pub x: u64,
    pub y: u64,
}

// The picture's beginning, on white.
#[derive(Clone, Copy, PartialEq, Eq, Debug)]
pub struct PictureHead {
    pub width: u64,
    pub height: u64,
}

impl fmt::Display for PictureHead {
    ghost output = { λ x. Some (picture_head x.width x.height) };

    fn fmt<W: fmt::Write>(&self, f: &mut fmt::Formatter<W>) -> fmt::Result {
        let PictureHead { width, height } = *self;
        writeln!(
            f,
            "<svg xmlns='http://www.w3.org/2000/svg' width='{width}' height='{height}' font-family='sans-serif' font-size='11'>"
        )?;
        writeln!(f, "<rect width='100%' height='100%' fill='white'/>")
    }
}

// A word and a number, as the name of a round or a rank.
#[derive(Clone, Copy, PartialEq, Eq, Debug)]
pub struct Label<'a> {
    pub start: Point,
    pub word: &'a str,
    pub number: u32,
}

impl<'a> fmt::Display for Label<'a> {
    ghost output = { λ l. Some (label l.start.x l.start.y l.word.now l.number) };

    fn fmt<W: fmt::Write>(&self, f: &mut fmt::Formatter<W>) -> fmt::Result {
        let Label {
            start,
            word,
            number,
        } = *self;
        let Point { x, y } = start;
        writeln!(f, "<text x='{x}' y='{y}'>{word} {number}</text>")
    }
}

// The bar of a span.
#[derive(Clone, Copy, PartialEq, Eq, Debug)]
pub struct Bar {
    pub corner: Point,
    pub width: u64,
}

impl fmt::Display for Bar {
    ghost output = { λ b. Some (bar b.corner.x b.corner.y b.width) };

    fn fmt<W: fmt::Write>(&self, f: &mut fmt::Formatter<W>) -> fmt::Result {
        let Bar { corner, width } = *self;
        let Point { x, y } = corner;
        writeln!(
            f,
            "<rect x='{x}' y='{y}' width='{width}' height='{ROW}' fill='#3b6ea5'/>"
        )
    }
}

// The frame of the whole tile, in which the bar stands.
#[derive(Clone, Copy, PartialEq, Eq, Debug)]
pub struct Frame {
    pub corner: Point,
}

impl fmt::Display for Frame {
    ghost output = { λ r. Some (frame r.corner.x r.corner.y) };

    fn fmt<W: fmt::Write>(&self, f: &mut fmt::Formatter<W>) -> fmt::Result {
        let Point { x, y } = self.corner;
        writeln!(
            f,
            "<rect x='{x}' y='{y}' width='{COLUMN}' height='{ROW}' fill='none' stroke='#bbb'/>"
        )
    }
}

// The line of a transfer.
#[derive(Clone, Copy, PartialEq, Eq, Debug)]
pub struct Stroke {
    pub start: Point,
    pub end: Point,
}

impl fmt::Display for Stroke {
    ghost output = { λ s. Some (stroke s.start.x s.start.y s.end.x s.end.y) };

    fn fmt<W: fmt::Write>(&self, f: &mut fmt::Formatter<W>) -> fmt::Result {
        let Stroke { start, end } = *self;
        let Point { x: left, y: from } = start;
        let Point { x: right, y: to } = end;
        writeln!(
            f,
            "<line x1='{left}' y1='{from}' x2='{right}' y2='{to}' stroke='#c0562f' stroke-opacity='0.6'/>"
        )
    }
}

// What is told of a dump.
ghost use Rattle.std.specs.Prelude.{◌≡◌, Some, IfOk, string_bytes};
ghost use Rattle.dump.specs.Phases.{heading};
ghost use Rattle.dump.specs.Pixels.{item};
ghost use Rattle.dump.specs.Reading.{content};
ghost use Rattle.console.specs.Reports.{AnswerTo, Told, head_line, report, shown_pixel};

use crate::hex::{HexFault, read_hex};
use dump::dumps::{Dump, read_dump};
use dump::pixels::PixelAt;
use dump::stage::Head;
use dump::words::{body_words, is_blank};
use std::alloc::{AllocError, Global};
use std::fmt;
use std::fmt::Write;

// The line of what a head tells.
#[derive(Clone, Copy)]
struct HeadLine(Head);

impl fmt::Display for HeadLine {
    ghost output = { λ x. Some (head_line (heading x.0)) };

    fn fmt<W: fmt::Write>(&self, f: &mut fmt::Formatter<W>) -> fmt::Result {
        let Head {
            ranks,
            pixels,
            kind,
        } = self.0;
        let kind = kind.number();
        writeln!(f, "dump: ranks {ranks}, pixels {pixels}, kind {kind}")
    }
}

// The line of a pixel with its rank, number and words; nothing of a blank one.
#[derive(Clone, Copy)]
struct PixelLine<'a>(PixelAt<'a>);

impl<'a> fmt::Display for PixelLine<'a> {
    ghost output = { λ x. Some (shown_pixel (item x.0)) };

    fn fmt<W: fmt::Write>(&self, f: &mut fmt::Formatter<W>) -> fmt::Result {
        let PixelAt { rank, number, body } = self.0;
        if is_blank(body) {
            return Ok(());
        }
        write!(f, "  {rank}.{number}:")?;
        for word in body_words(body) {
            write!(f, " {word}")?;
        }
        writeln!(f)
    }
}

// All that is told of a dump that has the form.
fn report_of(heap: Global, found: Dump) -> Result<String, AllocError>
    ensures { IfOk result (λ s. string_bytes s ≡ report (content found.entry)) }
{
    let Dump { head, pixels } = found;
    let mut text = HeadLine(head).to_string(heap)?;
    for pixel in pixels {
        let line = PixelLine(pixel);
        write!(text, "{line}")?;
    }
    Ok(text)
}

// What is told of bytes: what the dump holds, or its first fault.
pub fn dump_text(heap: Global, bytes: &[u8]) -> Result<String, AllocError>
    ensures { IfOk result (λ s. Told bytes.now (string_bytes s)) }
{
    match read_dump(bytes) {
        Ok(found) => report_of(heap, found),
        Err(fault) => format!(in heap; "{fault}\n"),
    }
}

// The answer to a line: what is told of the dump that it spells in hexadecimal.
pub fn line_text(heap: Global, line: &[u8]) -> Result<String, AllocError>
    ensures { IfOk result (λ s. AnswerTo line.now (string_bytes s)) }
{
    match read_hex(heap, line) {
        Ok(bytes) => dump_text(heap, bytes.as_slice()),
        Err(HexFault::Memory) => Err(AllocError),
        Err(fault) => format!(in heap; "{fault}\n"),
    }
}

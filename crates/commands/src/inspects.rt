// Looks at dumps.
ghost use Rattle.std.specs.Io.KnownBytes.{Appends};
ghost use Rattle.std.specs.Prelude.{OnOk, List, ℕ};
ghost use Rattle.commands.specs.Lines.{Answers};
ghost use Rattle.console.specs.Reports.{AnswerTo, Told};

use console::inspect::{dump_text, line_text};
use std::alloc::Global;
use std::fs;
use std::io::{BufRead, Write};
use std::rt::Files;

// Answers each line of the input.
pub fn inspect_lines<R: BufRead + Drop, W: Write>(
    heap: Global,
    input: R,
    output: &mut W,
) -> anyhow::Result<()>
    ensures { OnOk result (Answers AnswerTo (R.remaining input) (W.contents output.old) (W.contents output.new)) }
{
    for line in input.split(heap, b'\n') {
        let text = line_text(heap, line?.as_slice())?;
        output.write_all(text.as_bytes())?;
        output.flush()?;
    }
    Ok(())
}

// Tells of the dump in a file.
pub fn inspect_file<W: Write>(
    heap: Global,
    rt: &(impl Files + Alloc),
    path: &str,
    output: &mut W,
) -> anyhow::Result<()>
    ensures { OnOk result ((bytes text : List ℕ) × Told bytes text × Appends (W.contents output.old) (W.contents output.new) text) }
{
    match fs::read(rt, path) {
        Ok(bytes) => {
            let text = dump_text(heap, bytes.as_slice())?;
            output.write_all(text.as_bytes())?;
            output.flush()?;
            Ok(())
        }
        Err(error) => {
            writeln!(output, "cannot read {path}: {error}")?;
            output.flush()?;
            Err(error.into())
        }
    }
}

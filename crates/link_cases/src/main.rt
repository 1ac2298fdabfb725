// Runs `tilemerge link` on a table of calls.
#![tactic(auto)]

use commands::links::link_lines;
use std::io;
use std::io::{BufReader, BufWriter};

fn main(rt: HostRuntime) -> anyhow::Result<()> {
    let heap = rt.alloc();
    let input = BufReader::new(heap, rt.stdin())?;
    let mut output = BufWriter::with_capacity(heap, 1024, io::writer(&rt))?;
    link_lines(heap, input, &mut output)
}

// Runs `tilemerge plan` on a table of requests.
#![tactic(auto)]

use commands::plans::plan_lines;
use std::io;
use std::io::{BufReader, BufWriter};

fn main(rt: HostRuntime) -> anyhow::Result<()> {
    let heap = rt.alloc();
    let input = BufReader::new(heap, rt.stdin())?;
    let mut output = BufWriter::with_capacity(heap, 1024, io::writer(&rt))?;
    plan_lines(heap, input, &mut output)
}

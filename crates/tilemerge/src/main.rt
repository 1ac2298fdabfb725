// The program: asks the library, and prints what it answers.
#![tactic(auto)]

use anyhow::anyhow;
use commands::inspects::{inspect_file, inspect_lines};
use commands::links::link_lines;
use commands::plans::{plan_lines, plan_words};
use console::command_line::{Request, request_of};
use std::io::{BufReader, BufWriter, Printer, Stdin};
use std::{env, io};

const HELP: &str =
    "tilemerge: looks at dumps of pictures, shows plans of merging them, and tries links between cards

  tilemerge inspect                       each line of standard input is a dump in hexadecimal: tells what it holds, or its first fault
  tilemerge inspect FILE                  the same of the dump in a file
  tilemerge plan swap R P [--svg]         shows the 2-3 plan for R ranks and P pixels
  tilemerge plan radix R P K.. [--svg]    shows the radix plan with the factors K..
  tilemerge plan                          the same, a request a line of standard input
  tilemerge link                          replays calls of links, one a line of standard input:
                                          link cell N L, link line N L, layer trim, send F T W.., read F T, clear F T, waiting F T, area LENGTH
  tilemerge help                          this text
";

// Says that the words ask for nothing.
fn refuse(rt: &HostRuntime, word: &str) -> anyhow::Result<()> {
    println!(rt; "no request in the words from '{word}' on; try 'tilemerge help'")?;
    Err(anyhow!("no such request"))
}

// Standard input.
fn input(rt: &HostRuntime) -> io::Result<BufReader<Stdin>> {
    BufReader::new(rt.alloc(), rt.stdin())
}

// Standard output; each command writes its answers out.
fn output(rt: &HostRuntime) -> io::Result<BufWriter<Printer<'_, HostRuntime>>> {
    BufWriter::with_capacity(rt.alloc(), 1024, io::writer(rt))
}

fn main(rt: HostRuntime) -> anyhow::Result<()> {
    let heap = rt.alloc();
    let given = env::args(&rt)?.skip(1).collect::<Vec<String>>(heap)?;
    match request_of(given.as_slice()) {
        Request::Help => Ok(rt.print(HELP)?),
        Request::InspectLines => inspect_lines(heap, input(&rt)?, &mut output(&rt)?),
        Request::InspectFile(path) => inspect_file(heap, &rt, path, &mut output(&rt)?),
        Request::Plan([]) => plan_lines(heap, input(&rt)?, &mut output(&rt)?),
        Request::Plan(words) => plan_words(heap, words, &mut output(&rt)?),
        Request::Link => link_lines(heap, input(&rt)?, &mut output(&rt)?),
        Request::Unknown(word) => refuse(&rt, word),
    }
}

// Prints the transcripts of the logs on standard input, run on fresh pessimistic tables.
// Three lines for each mode: a program has an input and an output of its own.
#![tactic(auto)]

use model::Mode;
use std::io;
use std::io::{BufWriter, Write};

fn main(rt: HostRuntime) -> io::Result<()> {
    let mut out = BufWriter::new(rt.alloc(), io::writer(&rt))?;
    batch::print_transcripts(&mut out, &mut rt.stdin(), Mode::Pessimistic)?;
    out.flush()
}

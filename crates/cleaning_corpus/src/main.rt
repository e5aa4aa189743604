// Runs logs with cleans between their steps, and prints what the reads then give.
#![tactic(auto)]

use std::io;
use std::io::{BufWriter, Write};

fn main(rt: HostRuntime) -> io::Result<()> {
    let mut out = BufWriter::new(rt.alloc(), io::writer(&rt))?;
    cases::take_input(&mut out, &mut rt.stdin())?;
    out.flush()
}

// Takes tables as numbers, every field of them, tries the calls on each, and prints all that they give.
#![tactic(auto)]

use std::io;
use std::io::{BufWriter, Write};

fn main(rt: HostRuntime) -> io::Result<()> {
    let mut out = BufWriter::new(rt.alloc(), io::writer(&rt))?;
    cases::take_input(&mut out, &mut rt.stdin())?;
    out.flush()
}

// What the calls answer: the limits, point reads, instants, scans into buffers of any size, reads below the horizon, and a run with too few places.
#![tactic(auto)]

mod horizon;
mod limits;
mod reads;
mod runs;

use std::io;
use std::io::{BufWriter, Write};

fn main(rt: HostRuntime) -> io::Result<()> {
    let mut out = BufWriter::new(rt.alloc(), io::writer(&rt))?;
    limits::limits(&mut out)?;
    reads::reads(&mut out)?;
    reads::instants(&mut out)?;
    reads::room(&mut out)?;
    horizon::horizon(&mut out)?;
    runs::no_place(&mut out)?;
    out.flush()
}

// Candidate instants of tables that are set by hand: in range, though no steps lead to them.
#![tactic(auto)]

mod counts;
mod ends;
mod looking;
mod noted;
mod starts;
mod stepped;
mod timelines;

use std::io;
use std::io::{BufWriter, Write};

fn main(rt: HostRuntime) -> io::Result<()> {
    let mut out = BufWriter::new(rt.alloc(), io::writer(&rt))?;
    noted::noted(&mut out)?;
    counts::places_and_counts(&mut out)?;
    timelines::ends_of_the_timeline(&mut out)?;
    timelines::at_each_phase(&mut out)?;
    starts::beside_a_ready_writer(&mut out)?;
    starts::all_but_one(&mut out)?;
    starts::two_holders(&mut out)?;
    ends::of_each_mode(&mut out)?;
    out.flush()
}

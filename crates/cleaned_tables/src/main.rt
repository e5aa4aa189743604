// Cleans of tables that are set by hand: in range, though no steps lead to them.
#![tactic(auto)]

mod bases;
mod rows;

use std::io;
use std::io::{BufWriter, Write};

fn main(rt: HostRuntime) -> io::Result<()> {
    let mut out = BufWriter::new(rt.alloc(), io::writer(&rt))?;
    rows::beside(&mut out)?;
    rows::first_and_last(&mut out)?;
    rows::not_stored(&mut out)?;
    rows::horizon_set(&mut out)?;
    bases::of_another_group(&mut out)?;
    bases::at_each_base(&mut out)?;
    bases::of_each_writer(&mut out)?;
    out.flush()
}

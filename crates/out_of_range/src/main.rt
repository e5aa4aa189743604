// Answer 17, ground by ground: a table with every number at its largest, then with one number out of range.
#![tactic(auto)]

mod back;
mod largest;
mod of_a_writer;
mod of_the_table;
mod of_what_is_noted;
mod tried;

use std::io;
use std::io::{BufWriter, Write};

fn main(rt: HostRuntime) -> io::Result<()> {
    let mut out = BufWriter::new(rt.alloc(), io::writer(&rt))?;
    of_the_table::numbers(&mut out)?;
    of_the_table::horizon(&mut out)?;
    of_the_table::locks(&mut out)?;
    of_a_writer::numbers(&mut out)?;
    of_a_writer::ready(&mut out)?;
    of_what_is_noted::numbers(&mut out)?;
    of_what_is_noted::with_one_left(&mut out)?;
    of_what_is_noted::pessimistic(&mut out)?;
    back::back_in_range(&mut out)?;
    out.flush()
}

// Tables that are set by hand: in range, though no steps lead to them.
#![tactic(auto)]

mod entries;
mod groups;
mod held_locks;
mod numbers;
mod steps_and_locks;

use std::io;
use std::io::{BufWriter, Write};

fn main(rt: HostRuntime) -> io::Result<()> {
    let mut out = BufWriter::new(rt.alloc(), io::writer(&rt))?;
    groups::completed_elsewhere(&mut out)?;
    groups::base_of_another_group(&mut out)?;
    groups::two_groups_at_once(&mut out)?;
    groups::one_key_twice(&mut out)?;
    held_locks::held_by_none(&mut out)?;
    held_locks::two_held(&mut out)?;
    held_locks::at_phase_5(&mut out)?;
    held_locks::held_by_another(&mut out)?;
    steps_and_locks::of_each_mode(&mut out)?;
    numbers::not_given(&mut out)?;
    entries::said_to_be_made(&mut out)?;
    out.flush()
}

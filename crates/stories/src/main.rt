// Source 002's examples, document 01's traces and document 02's rules, run as logs and step by step.
#![tactic(auto)]

mod entries;
mod examples;
mod pessimistic;
mod traces;

use std::io;
use std::io::{BufWriter, Write};

fn main(rt: HostRuntime) -> io::Result<()> {
    let mut out = BufWriter::new(rt.alloc(), io::writer(&rt))?;
    examples::two_keys_or_one(&mut out)?;
    examples::lost_write(&mut out)?;
    examples::two_groups(&mut out)?;
    examples::out_of_order(&mut out)?;
    examples::out_of_order_two_groups(&mut out)?;
    traces::conflicts(&mut out)?;
    traces::refusals(&mut out)?;
    traces::erased_word(&mut out)?;
    traces::ends(&mut out)?;
    traces::starts(&mut out)?;
    traces::stops(&mut out)?;
    entries::taken_out(&mut out)?;
    entries::left(&mut out)?;
    entries::looked_up(&mut out)?;
    pessimistic::conflicts(&mut out)?;
    pessimistic::checks(&mut out)?;
    pessimistic::ends(&mut out)?;
    pessimistic::refusals(&mut out)?;
    pessimistic::apart(&mut out)?;
    pessimistic::entries(&mut out)?;
    out.flush()
}

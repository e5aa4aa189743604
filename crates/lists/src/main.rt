// A list of steps that is run on tables of either mode: with a place for every answer, with a place too few, and with none.
#![tactic(auto)]

mod steps;

use model::limits::ROWS;
use model::{Mode, Table, Value};
use std::io;
use std::io::{BufWriter, Write};
use steps::run_steps;

// Runs the list, and prints the answers, all places, the stop, and the rows at the last timestamp.
fn run_printed(
    out: &mut impl Write,
    t: Table,
    present: &mut [bool; ROWS],
    values: &mut [Value; ROWS],
    label: &[u8],
    answers: &mut [u8],
) -> io::Result<Table> {
    let ran = run_steps(t, present, values, answers);
    let after = ran.table;
    report::answers(out, label, answers, ran.count)?;
    report::answers(out, b"all places:", answers, answers.len())?;
    report::stop(out, u8::from(ran.stop), ran.offset)?;
    scripts::scan(out, after, present, values, after.last as u64)?;
    Ok(after)
}

// Runs the list on a fresh table, and again on the table that this leaves.
fn run_twice(
    out: &mut impl Write,
    mode: Mode,
    title: &[u8],
    first: &mut [u8],
    second: &mut [u8],
) -> io::Result<()> {
    let mut present = [false; ROWS];
    let mut values: [Value; ROWS] = [0; ROWS];
    let t = table::fresh(mode, &mut present, &mut values);
    report::title(out, title)?;
    let after = run_printed(out, t, &mut present, &mut values, b"run:", first)?;
    run_printed(out, after, &mut present, &mut values, b"again:", second)?;
    Ok(())
}

fn optimistic(out: &mut impl Write) -> io::Result<()> {
    run_twice(
        out,
        Mode::Optimistic,
        b"A place for every answer",
        &mut [255; 9],
        &mut [255; 12],
    )?;
    run_twice(
        out,
        Mode::Optimistic,
        b"A place too few",
        &mut [255; 8],
        &mut [255; 9],
    )?;
    run_twice(
        out,
        Mode::Optimistic,
        b"No place",
        &mut [255; 0],
        &mut [255; 3],
    )
}

// Here the check is refused, and the commit is taken without it.
fn pessimistic(out: &mut impl Write) -> io::Result<()> {
    run_twice(
        out,
        Mode::Pessimistic,
        b"A place for every answer, pessimistic",
        &mut [255; 9],
        &mut [255; 12],
    )?;
    run_twice(
        out,
        Mode::Pessimistic,
        b"A place too few, pessimistic",
        &mut [255; 8],
        &mut [255; 9],
    )?;
    run_twice(
        out,
        Mode::Pessimistic,
        b"No place, pessimistic",
        &mut [255; 0],
        &mut [255; 3],
    )
}

fn main(rt: HostRuntime) -> io::Result<()> {
    let mut out = BufWriter::new(rt.alloc(), io::writer(&rt))?;
    optimistic(&mut out)?;
    pessimistic(&mut out)?;
    out.flush()
}

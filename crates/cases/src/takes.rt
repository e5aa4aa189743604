// Taking the items of an input, one after the other on one table.
use crate::items::{Item, Items, Kind};
use crate::show::show;
use common::Word;
use model::limits::ROWS;
use model::{Mode, Table, Value};
use scripts::{choose, clean, piece};
use std::io;
use std::io::Write;

// A fresh table for a case.
fn begin(
    out: &mut impl Write,
    mode: Mode,
    present: &mut [bool; ROWS],
    values: &mut [Value; ROWS],
    number: Word,
) -> io::Result<Table> {
    writeln!(out, "== case {number}")?;
    Ok(table::fresh(mode, present, values))
}

// The candidate instants of each writer below a number.
fn choose_each(out: &mut impl Write, t: Table, writers: Word) -> io::Result<()> {
    for writer in 0..writers {
        choose(out, t, b"", writer)?;
    }
    Ok(())
}

// Runs a log. No timestamp is read: other items ask for that.
fn run(
    out: &mut impl Write,
    t: Table,
    present: &mut [bool; ROWS],
    values: &mut [Value; ROWS],
    log: &[u8],
    by_steps: bool,
) -> io::Result<Table> {
    piece(out, t, present, values, b"run:", log, 1, 0, by_steps)
}

// Takes an item on a table, and gives the table then. One of no kind does nothing.
fn take(
    out: &mut impl Write,
    t: Table,
    present: &mut [bool; ROWS],
    values: &mut [Value; ROWS],
    item: Item<'_>,
) -> io::Result<Table> {
    let Item {
        kind,
        number,
        bytes,
    } = item;
    let Some(kind) = kind else {
        return Ok(t);
    };
    match kind {
        Kind::Optimistic => return begin(out, Mode::Optimistic, present, values, number),
        Kind::Pessimistic => return begin(out, Mode::Pessimistic, present, values, number),
        Kind::Run => return run(out, t, present, values, bytes, false),
        Kind::RunBySteps => return run(out, t, present, values, bytes, true),
        Kind::Clean => return clean(out, t, present, number),
        Kind::Set => return Ok(trials::set(t, present, values, bytes)),
        Kind::Show => show(out, t, present, values, number, t.last as u64 + 1)?,
        Kind::ChooseEach => choose_each(out, t, number)?,
        Kind::Choose => choose(out, t, b"", number)?,
        Kind::NotedNumbers => report::noted(out, t)?,
        Kind::TryLog => trials::log_tried(out, t, present, values, bytes)?,
        Kind::TryClean => trials::clean_tried(out, t, present, values, number)?,
        Kind::TryRead => trials::read_tried(out, t, present, values, bytes)?,
        Kind::TryScan => trials::scan_tried(out, t, present, values, bytes)?,
    }
    Ok(t)
}

// Takes each item on the table that the last one left.
pub fn take_each(
    out: &mut impl Write,
    mut t: Table,
    present: &mut [bool; ROWS],
    values: &mut [Value; ROWS],
    input: &[u8],
) -> io::Result<()> {
    for item in Items(input) {
        t = take(out, t, present, values, item)?;
    }
    Ok(())
}

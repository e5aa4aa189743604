// Tables and rows, set by hand.
#![tactic(auto)]

mod cleans;

pub use cleans::{clean_rows, clean_story};
use model::limits::ROWS;
use model::{Mode, Table, Value, Writer};
use scripts::{play, run_printed};
use slices::row_place;
use std::io;
use std::io::Write;

// A writer with a put.
pub fn putting(phase: u8, key: u8, value: Value, group: u8, ts: u8, base: u8) -> Writer {
    Writer {
        phase,
        put: true,
        made: false,
        key,
        group,
        ts,
        base,
        value,
    }
}

// A writer with a remove.
pub fn removing(phase: u8, key: u8, group: u8, ts: u8, base: u8) -> Writer {
    let mut x = putting(phase, key, 0, group, ts, base);
    x.put = false;
    x
}

// A fresh table of a mode but for its last timestamp.
pub fn bare(mode: Mode, last: u8) -> Table {
    let mut present = [false; ROWS];
    let mut values: [Value; ROWS] = [0; ROWS];
    let mut t = table::fresh(mode, &mut present, &mut values);
    t.last = last;
    t
}

// Runs a log on a table without rows, whole or step by step, prints its answers, and gives the table.
pub fn run_bare(
    out: &mut impl Write,
    t: Table,
    label: &[u8],
    log: &[u8],
    by_steps: bool,
) -> io::Result<Table> {
    let mut present = [false; ROWS];
    let mut values: [Value; ROWS] = [0; ROWS];
    let ran = run_printed(
        out,
        t,
        &mut present,
        &mut values,
        label,
        log,
        &mut [0; 8],
        by_steps,
    )?;
    Ok(ran.table)
}

// A row of the slice of a file group and a timestamp.
fn set_row(
    present: &mut [bool; ROWS],
    values: &mut [Value; ROWS],
    group: u8,
    ts: u8,
    key: u8,
    value: u8,
) {
    if let Some(row) = row_place(group as usize, ts as usize, key as usize) {
        present[row] = true;
        values[row] = value as Value;
    }
}

// The rows of a table, each four bytes: file group, timestamp, key and value.
pub fn set_rows(present: &mut [bool; ROWS], values: &mut [Value; ROWS], rows: &[u8]) {
    for row in rows.chunks_exact(4) {
        set_row(present, values, row[0], row[1], row[2], row[3]);
    }
}

// A script on a table with these rows, and no others.
pub fn story(
    out: &mut impl Write,
    title: &[u8],
    t: Table,
    rows: &[u8],
    script: &[u8],
    first: u64,
    last: u64,
) -> io::Result<()> {
    let mut present = [false; ROWS];
    let mut values: [Value; ROWS] = [0; ROWS];
    set_rows(&mut present, &mut values, rows);
    report::title(out, title)?;
    play(out, t, &present, &values, script, first, last)
}

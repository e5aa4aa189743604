// What the calls give, a line for each timestamp, and which rows are stored.
use common::Word;
use model::limits::{GROUPS, KEYS, ROWS};
use model::{Table, Value};
use report::SIGNS;
use slices::row_place;
use std::io;
use std::io::Write;

// Room for a row of each key.
const ROOM: usize = 3 * KEYS;

// The rows of a scan.
fn listing(
    out: &mut impl Write,
    t: Table,
    present: &[bool; ROWS],
    values: &[Value; ROWS],
    at: u64,
) -> io::Result<()> {
    let mut buffer = [0; ROOM];
    let found = snapshot::scan(t, present, values, at, &mut buffer);
    SIGNS.listing(out, found, &buffer)
}

// The point reads of the keys below a number.
fn point_reads(
    out: &mut impl Write,
    t: Table,
    present: &[bool; ROWS],
    values: &[Value; ROWS],
    at: u64,
    keys: Word,
) -> io::Result<()> {
    for key in 0..keys {
        SIGNS.found(out, snapshot::read(t, present, values, at, key))?;
    }
    Ok(())
}

// A row that is stored under a timestamp: its file group and key.
fn stored_row(
    out: &mut impl Write,
    present: &[bool; ROWS],
    ts: usize,
    group: usize,
    key: usize,
) -> io::Result<()> {
    if row_place(group, ts, key).is_some_and(|row| present[row]) {
        write!(out, " {group}:{key}")?;
    }
    Ok(())
}

// The rows that are stored under a timestamp, of slices that are completed or not, by file group.
fn stored(out: &mut impl Write, present: &[bool; ROWS], ts: usize) -> io::Result<()> {
    for group in 0..GROUPS {
        for key in 0..KEYS {
            stored_row(out, present, ts, group, key)?;
        }
    }
    Ok(())
}

// A timestamp: its instant, scan, reads and stored rows.
fn line(
    out: &mut impl Write,
    t: Table,
    present: &[bool; ROWS],
    values: &[Value; ROWS],
    at: u64,
    keys: Word,
) -> io::Result<()> {
    write!(out, "{at}")?;
    SIGNS.instant(out, snapshot::instant(t, at))?;
    write!(out, ":")?;
    listing(out, t, present, values, at)?;
    write!(out, ";")?;
    point_reads(out, t, present, values, at, keys)?;
    write!(out, ";")?;
    stored(out, present, at as usize)?;
    writeln!(out)
}

// The line of each timestamp up to a last one.
pub fn show(
    out: &mut impl Write,
    t: Table,
    present: &[bool; ROWS],
    values: &[Value; ROWS],
    keys: Word,
    last: u64,
) -> io::Result<()> {
    for at in 0..=last {
        line(out, t, present, values, at, keys)?;
    }
    Ok(())
}

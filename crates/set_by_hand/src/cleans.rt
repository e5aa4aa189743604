// Cleans of tables with rows that are set by hand; and all rows that have a value, present or not.
use crate::set_rows;
use model::limits::{GROUPS, KEYS, ROWS};
use model::{Table, Value};
use scripts::{clean, play};
use std::io;
use std::io::Write;

// A row that is present or has a value: its file group, timestamp, key and value.
fn stored_row(out: &mut impl Write, row: usize, shown: bool, value: Value) -> io::Result<()> {
    if shown || value != 0 {
        let group = row / KEYS % GROUPS;
        let ts = row / (KEYS * GROUPS) + 1;
        let key = row % KEYS;
        let absent = if shown { "" } else { " absent" };
        write!(out, " {group} {ts} {key} {value}{absent},")?;
    }
    Ok(())
}

fn stored_rows(
    out: &mut impl Write,
    present: &[bool; ROWS],
    values: &[Value; ROWS],
) -> io::Result<()> {
    for row in 0..ROWS {
        stored_row(out, row, present[row], values[row])?;
    }
    Ok(())
}

// Cleans a table at a timestamp, and prints every such row. A dropped row keeps its value: a clean is lent the presence of rows alone.
fn clean_at(
    out: &mut impl Write,
    t: Table,
    present: &mut [bool; ROWS],
    values: &[Value; ROWS],
    at: u8,
) -> io::Result<Table> {
    let after = clean(out, t, present, at as u64)?;
    write!(out, "rows:")?;
    stored_rows(out, present, values)?;
    writeln!(out)?;
    Ok(after)
}

// Cleans a table at each of these timestamps.
fn clean_each(
    out: &mut impl Write,
    t: Table,
    present: &mut [bool; ROWS],
    values: &[Value; ROWS],
    timestamps: &[u8],
) -> io::Result<Table> {
    let mut after = t;
    for at in timestamps {
        after = clean_at(out, after, present, values, *at)?;
    }
    Ok(after)
}

// Cleans a table with these rows, and no others, at each of these timestamps.
pub fn clean_rows(
    out: &mut impl Write,
    t: Table,
    rows: &[u8],
    timestamps: &[u8],
) -> io::Result<()> {
    let mut present = [false; ROWS];
    let mut values: [Value; ROWS] = [0; ROWS];
    set_rows(&mut present, &mut values, rows);
    clean_each(out, t, &mut present, &values, timestamps)?;
    Ok(())
}

// The same, and then a script on what is left.
pub fn clean_story(
    out: &mut impl Write,
    title: &[u8],
    t: Table,
    rows: &[u8],
    timestamps: &[u8],
    script: &[u8],
    first: u64,
    last: u64,
) -> io::Result<()> {
    let mut present = [false; ROWS];
    let mut values: [Value; ROWS] = [0; ROWS];
    set_rows(&mut present, &mut values, rows);
    report::title(out, title)?;
    let after = clean_each(out, t, &mut present, &values, timestamps)?;
    play(out, after, &present, &values, script, first, last)
}

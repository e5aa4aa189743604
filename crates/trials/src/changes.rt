// What a call has changed: the numbers of a table and its rows that differ, printed.
use crate::numbers::{NUMBERS, number_at};
use model::limits::{GROUPS, KEYS, ROWS};
use model::{Table, Value};
use std::io;
use std::io::Write;

// The numbers that differ, each behind its place.
fn numbers_changed(out: &mut impl Write, before: &Table, after: &Table) -> io::Result<()> {
    for place in 0..NUMBERS {
        let number = number_at(after, place);
        if number_at(before, place) != number {
            write!(out, " {place}={number}")?;
        }
    }
    Ok(())
}

// A row: its file group, timestamp and key, and its value if it is present.
fn row(out: &mut impl Write, at: usize, value: Option<Value>) -> io::Result<()> {
    let group = at / KEYS % GROUPS;
    let ts = at / (KEYS * GROUPS) + 1;
    let key = at % KEYS;
    write!(out, " {group}/{ts}/{key}")?;
    match value {
        Some(value) => write!(out, "={value}"),
        None => write!(out, "-"),
    }
}

// The rows that were present, or are, and differ.
fn rows_changed(
    out: &mut impl Write,
    was_present: &[bool; ROWS],
    old_values: &[Value; ROWS],
    present: &[bool; ROWS],
    values: &[Value; ROWS],
) -> io::Result<()> {
    let before = was_present.iter().zip(old_values.iter());
    let after = present.iter().zip(values.iter());
    for (at, ((was_shown, old), (shown, value))) in before.zip(after).enumerate() {
        let value = shown.then_some(*value);
        if was_shown.then_some(*old) != value {
            row(out, at, value)?;
        }
    }
    Ok(())
}

// All that differs, at the end of a line.
pub fn changes(
    out: &mut impl Write,
    before: &Table,
    was_present: &[bool; ROWS],
    old_values: &[Value; ROWS],
    after: &Table,
    present: &[bool; ROWS],
    values: &[Value; ROWS],
) -> io::Result<()> {
    numbers_changed(out, before, after)?;
    rows_changed(out, was_present, old_values, present, values)?;
    writeln!(out)
}

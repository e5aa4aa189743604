// The calls that take a table, each tried on one that stays as it is.
use crate::changes::changes;
use crate::setting::Pairs;
use model::limits::{GROUPS, KEYS, ROWS, TIMESTAMPS};
use model::{Step, Table, Value};
use report::SIGNS;
use std::io;
use std::io::Write;
use steplog::Reader;

// Places for the answers of a run.
const PLACES: usize = 2 * TIMESTAMPS;

// Room for a row of each key in each file group.
const ROOM: usize = 3 * GROUPS * KEYS;

// What a buffer holds before a scan.
const FILL: Value = 7;

// One step.
fn step_tried(
    out: &mut impl Write,
    t: Table,
    present: &[bool; ROWS],
    values: &[Value; ROWS],
    step: Step,
) -> io::Result<()> {
    let mut shown = *present;
    let mut held = *values;
    let done = table::advance(t, &mut shown, &mut held, step);
    let answer = done.answer;
    write!(out, "step: {answer}")?;
    changes(out, &t, present, values, &done.table, &shown, &held)
}

// Each record of a log, as one step.
fn steps_tried(
    out: &mut impl Write,
    t: Table,
    present: &[bool; ROWS],
    values: &[Value; ROWS],
    log: &[u8],
) -> io::Result<()> {
    let mut reader = Reader::open(log, 0);
    // No more records than bytes.
    for _ in log {
        let Ok(found) = reader.next_record() else {
            return Ok(());
        };
        step_tried(out, t, present, values, found.step)?;
    }
    Ok(())
}

// The run of a log.
fn run_tried(
    out: &mut impl Write,
    t: Table,
    present: &[bool; ROWS],
    values: &[Value; ROWS],
    log: &[u8],
) -> io::Result<()> {
    let mut shown = *present;
    let mut held = *values;
    let mut places = [0u8; PLACES];
    let ran = run::run_log(t, &mut shown, &mut held, log, &mut places);
    report::ran(out, &places, ran.count, u8::from(ran.stop), ran.offset)?;
    changes(out, &t, present, values, &ran.table, &shown, &held)
}

// The range test; then each record of a log as one step, and the run of the log.
pub fn log_tried(
    out: &mut impl Write,
    t: Table,
    present: &[bool; ROWS],
    values: &[Value; ROWS],
    log: &[u8],
) -> io::Result<()> {
    if metadata::in_range(t) {
        writeln!(out, "in range")?;
    } else {
        writeln!(out, "out of range")?;
    }
    steps_tried(out, t, present, values, log)?;
    run_tried(out, t, present, values, log)
}

// A clean.
pub fn clean_tried(
    out: &mut impl Write,
    t: Table,
    present: &[bool; ROWS],
    values: &[Value; ROWS],
    at: u64,
) -> io::Result<()> {
    let mut shown = *present;
    let done = cleaning::clean(t, &mut shown, at);
    let answer = done.answer;
    write!(out, "clean tried at {at}: {answer}")?;
    changes(out, &t, present, values, &done.table, &shown, values)
}

// The instant of a timestamp, the point read of a key there, and the scan. The numbers are a pair, timestamp and key.
pub fn read_tried(
    out: &mut impl Write,
    t: Table,
    present: &[bool; ROWS],
    values: &[Value; ROWS],
    numbers: &[u8],
) -> io::Result<()> {
    let (at, key) = Pairs::of(numbers).next().unwrap_or_default();
    let mut buffer = [FILL; ROOM];
    write!(out, "at {at}:")?;
    SIGNS.instant(out, snapshot::instant(t, at))?;
    SIGNS.found(out, snapshot::read(t, present, values, at, key))?;
    write!(out, ";")?;
    let found = snapshot::scan(t, present, values, at, &mut buffer);
    SIGNS.listing(out, found, &buffer)?;
    writeln!(out)
}

// A scan into a buffer, which is printed whole. The numbers are a pair, the timestamp and the room.
pub fn scan_tried(
    out: &mut impl Write,
    t: Table,
    present: &[bool; ROWS],
    values: &[Value; ROWS],
    numbers: &[u8],
) -> io::Result<()> {
    let (at, room) = Pairs::of(numbers).next().unwrap_or_default();
    let mut buffer = [FILL; ROOM];
    match buffer.get_mut(..room as usize) {
        Some(buffer) => scripts::scan_into(out, t, present, values, at, buffer),
        None => Ok(()),
    }
}

// A run with fewer places than the log has records.
use model::limits::ROWS;
use model::{Mode, Value};
use scripts::run_printed;
use std::io;
use std::io::Write;

// Document 01's log, with places for four of its seven answers: the run stops, and a second one, with eight places, goes on from its
// offset. All places are printed; those behind the answers keep their content.
fn in_two_runs(out: &mut impl Write, log: &[u8], by_steps: bool) -> io::Result<()> {
    let mut present = [false; ROWS];
    let mut values: [Value; ROWS] = [0; ROWS];
    let mut four = [99u8; 4];
    let mut eight = [99u8; 8];
    let t = table::fresh(Mode::Optimistic, &mut present, &mut values);
    let first = run_printed(
        out,
        t,
        &mut present,
        &mut values,
        b"four places:",
        log,
        &mut four,
        by_steps,
    )?;
    let Some(rest) = log.get(first.offset..) else {
        return Ok(());
    };
    run_printed(
        out,
        first.table,
        &mut present,
        &mut values,
        b"the rest:",
        rest,
        &mut eight,
        by_steps,
    )?;
    report::answers(out, b"all places:", &eight, 8)
}

pub fn no_place(out: &mut impl Write) -> io::Result<()> {
    let log = b"\x00\x01\x01\xac\x02\x02\x00\x03\x00\x04\x00\x05\x00\x06\x00\x07\x00\x08";
    report::title(out, b"No place for the next answer")?;
    in_two_runs(out, log, false)?;
    writeln!(out, "-- step by step")?;
    in_two_runs(out, log, true)
}

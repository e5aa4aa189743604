// A table that is out of range, and in range again.
use crate::largest::LAST;
use model::limits::ROWS;
use model::{Mode, Value};
use scripts::{play, run_printed};
use std::io;
use std::io::Write;

// A last timestamp that is too large: every step is refused and changes nothing. With the last timestamp 0 again it is a fresh table.
pub fn back_in_range(out: &mut impl Write) -> io::Result<()> {
    let log = b"\x00\x01\x01\x0a\x01\x00\x03";
    let script = b"a put:\x00\x01\x01\x0a\x01\x00\x03\x00\x04\x00\x05\x00\x06\x00\x07\x00\x08;";
    let mut present = [false; ROWS];
    let mut values: [Value; ROWS] = [0; ROWS];
    let mut places = [99u8; 4];
    let mut t = table::fresh(Mode::Optimistic, &mut present, &mut values);
    t.last = LAST + 1;
    report::title(out, b"Out of range")?;
    let ran = run_printed(
        out,
        t,
        &mut present,
        &mut values,
        b"run:",
        log,
        &mut places,
        false,
    )?;
    report::answers(out, b"all places:", &places, 4)?;
    t = ran.table;
    let last = t.last;
    writeln!(out, "last timestamp: {last}")?;
    t.last = 0;
    report::title(out, b"Back in range")?;
    play(out, t, &present, &values, script, 1, 1)
}

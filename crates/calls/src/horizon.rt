// Reads below the horizon, at it and above it.
use crate::reads::{run_on_fresh, scan_into_room};
use model::limits::ROWS;
use model::{Mode, Table, Value};
use scripts::{clean, instant, point_read};
use std::io;
use std::io::Write;

// Below the horizon 32 comes before 12 and 31, and the instant call is answered. 258 and 4,294,967,298 are above it: not their lowest byte alone counts.
fn reads(
    out: &mut impl Write,
    t: Table,
    present: &[bool; ROWS],
    values: &[Value; ROWS],
) -> io::Result<()> {
    for (at, key) in [
        (2, 1),
        (2, 32),
        (0, u64::MAX),
        (3, 1),
        (3, 32),
        (258, 2),
        (4294967298, 2),
        (u64::MAX, 2),
    ] {
        point_read(out, t, present, values, at, key)?;
    }
    for (at, room) in [
        (2, 0),
        (2, 5),
        (2, 6),
        (3, 5),
        (3, 8),
        (258, 6),
        (u64::MAX, 6),
    ] {
        scan_into_room(out, t, present, values, at, room)?;
    }
    for at in 0..=3 {
        instant(out, t, at)?;
    }
    Ok(())
}

// Key 1 = 10, then 11, in file group 1 and key 2 = 20, then 21, in group 2; cleaned at 3, where the slice of timestamp 1 is dropped.
fn horizon_in(out: &mut impl Write, mode: Mode, log: &[u8]) -> io::Result<()> {
    let mut present = [false; ROWS];
    let mut values: [Value; ROWS] = [0; ROWS];
    let t = run_on_fresh(
        out,
        mode,
        &mut present,
        &mut values,
        b"two keys are put, and put again:",
        log,
        false,
    )?;
    let after = clean(out, t, &mut present, 3)?;
    reads(out, after, &present, &values)
}

pub fn horizon(out: &mut impl Write) -> io::Result<()> {
    report::title(out, b"Reads and the horizon")?;
    horizon_in(
        out,
        Mode::Optimistic,
        b"\
        \x01\x01\x01\x0a\x01\x01\x03\x01\x04\x01\x05\x01\x06\x01\x07\x01\x08\
        \x02\x01\x02\x14\x02\x02\x03\x02\x04\x02\x05\x02\x06\x02\x07\x02\x08\
        \x03\x01\x01\x0b\x01\x03\x03\x03\x04\x03\x05\x03\x06\x03\x07\x03\x08\
        \x04\x01\x02\x15\x02\x04\x03\x04\x04\x04\x05\x04\x06\x04\x07\x04\x08",
    )?;
    report::title(out, b"Reads and the horizon, pessimistic")?;
    horizon_in(
        out,
        Mode::Pessimistic,
        b"\
        \x01\x01\x01\x0a\x01\x01\x03\x01\x04\x01\x05\x01\x06\x01\x08\
        \x02\x01\x02\x14\x02\x02\x03\x02\x04\x02\x05\x02\x06\x02\x08\
        \x03\x01\x01\x0b\x01\x03\x03\x03\x04\x03\x05\x03\x06\x03\x08\
        \x04\x01\x02\x15\x02\x04\x03\x04\x04\x04\x05\x04\x06\x04\x08",
    )
}

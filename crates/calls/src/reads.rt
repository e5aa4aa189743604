// The reads of a table.
ghost use Rattle.std.specs.Prelude.{◌≤◌};

use model::limits::ROWS;
use model::{Mode, Table, Value};
use scripts::{instant, point_read, run_printed, scan_into};
use std::io;
use std::io::Write;

// Runs a log of at most 28 steps on a fresh table, prints its answers, and gives the table.
pub fn run_on_fresh(
    out: &mut impl Write,
    mode: Mode,
    present: &mut [bool; ROWS],
    values: &mut [Value; ROWS],
    label: &[u8],
    log: &[u8],
    by_steps: bool,
) -> io::Result<Table> {
    let t = table::fresh(mode, &mut *present, &mut *values);
    let ran = run_printed(
        out,
        t,
        &mut *present,
        &mut *values,
        label,
        log,
        &mut [0; 28],
        by_steps,
    )?;
    Ok(ran.table)
}

// A scan at a timestamp into a buffer of nines with room for so many numbers, eight at most.
pub fn scan_into_room(
    out: &mut impl Write,
    t: Table,
    present: &[bool; ROWS],
    values: &[Value; ROWS],
    at: u64,
    room: usize,
) -> io::Result<()>
    requires { room ≤ 8 }
{
    scan_into(out, t, present, values, at, &mut [9; 8][..room])
}

// Point reads, among them of keys whose lowest bits are those of key 1.
fn point_reads(
    out: &mut impl Write,
    t: Table,
    present: &[bool; ROWS],
    values: &[Value; ROWS],
) -> io::Result<()> {
    for (at, key) in [
        (4, 1),
        (2, 1),
        (0, 1),
        (3, 2),
        (4, 2),
        (u64::MAX, 3),
        (4, 32),
        (4, 257),
        (4, 65537),
        (4, 4294967297),
        (4, 18446744073709551615),
    ] {
        point_read(out, t, present, values, at, key)?;
    }
    Ok(())
}

// A table with key 1 = 10, then 11, in file group 1 and key 2 = 20, then 4,294,967,317, in group 2.
pub fn reads(out: &mut impl Write) -> io::Result<()> {
    let log = b"\
        \x01\x01\x01\x0a\x01\x01\x03\x01\x04\x01\x05\x01\x06\x01\x07\x01\x08\
        \x02\x01\x02\x14\x02\x02\x03\x02\x04\x02\x05\x02\x06\x02\x07\x02\x08\
        \x03\x01\x01\x0b\x01\x03\x03\x03\x04\x03\x05\x03\x06\x03\x07\x03\x08\
        \x04\x01\x02\x95\x80\x80\x80\x10\x02\x04\x03\x04\x04\x04\x05\x04\x06\x04\x07\x04\x08";
    let mut present = [false; ROWS];
    let mut values: [Value; ROWS] = [0; ROWS];
    report::title(out, b"Point reads")?;
    let t = run_on_fresh(
        out,
        Mode::Optimistic,
        &mut present,
        &mut values,
        b"two keys are put, and put again:",
        log,
        false,
    )?;
    point_reads(out, t, &present, &values)
}

// The instants of the first timestamps and of none: not their lowest bits alone count.
fn all_instants(out: &mut impl Write, t: Table) -> io::Result<()> {
    for at in 0..=8 {
        instant(out, t, at)?;
    }
    for at in [128, 129, 259, 4294967299, u64::MAX] {
        instant(out, t, at)?;
    }
    Ok(())
}

// Timestamp 1: a remove that ends with 2. 2: started, and later too late for its group: 3. 3: committed. 4: given up behind its read.
// 5: started. 6: looked up. 7: read.
pub fn instants(out: &mut impl Write) -> io::Result<()> {
    let log = b"\
        \x01\x02\x01\x01\x03\
        \x02\x01\x01\x14\x05\
        \x03\x01\x01\x1e\x05\x03\x03\x03\x04\x03\x05\x03\x06\x03\x07\x03\x08\
        \x02\x03\x02\x04\
        \x04\x01\x04\x28\x07\x04\x03\x04\x04\x04\x09\
        \x05\x01\x05\x32\x00\
        \x06\x01\x06\x0a\x00\x06\x03\
        \x07\x01\x07\x0a\x00\x07\x03\x07\x04";
    let mut present = [false; ROWS];
    let mut values: [Value; ROWS] = [0; ROWS];
    let mut places = [0u8; 28];
    let t = table::fresh(Mode::Optimistic, &mut present, &mut values);
    report::title(out, b"Instants")?;
    all_instants(out, t)?;
    let ran = run_printed(
        out,
        t,
        &mut present,
        &mut values,
        b"seven timestamps:",
        log,
        &mut places,
        false,
    )?;
    all_instants(out, ran.table)
}

// Two rows: a buffer with less room than that is refused and keeps its content, one of six numbers is enough, one of eight keeps its last two.
fn room_after(out: &mut impl Write, by_steps: bool) -> io::Result<()> {
    let log = b"\
        \x01\x01\x01\x0a\x01\x01\x03\x01\x04\x01\x05\x01\x06\x01\x07\x01\x08\
        \x02\x01\x02\x14\x02\x02\x03\x02\x04\x02\x05\x02\x06\x02\x07\x02\x08";
    let mut present = [false; ROWS];
    let mut values: [Value; ROWS] = [0; ROWS];
    let after = run_on_fresh(
        out,
        Mode::Optimistic,
        &mut present,
        &mut values,
        b"two keys are put:",
        log,
        by_steps,
    )?;
    for (at, room) in [(2, 0), (2, 5), (2, 6), (2, 8), (0, 2)] {
        scan_into_room(out, after, &present, &values, at, room)?;
    }
    Ok(())
}

pub fn room(out: &mut impl Write) -> io::Result<()> {
    report::title(out, b"Room for two rows")?;
    room_after(out, false)?;
    writeln!(out, "-- step by step")?;
    room_after(out, true)
}

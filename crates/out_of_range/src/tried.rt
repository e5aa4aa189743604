// Every call on a table.
use crate::largest::{LAST, VALUE};
use model::limits::ROWS;
use model::{Table, Value};
use scripts::{choose, clean, instant, point_read, run_printed, scan_into};
use std::io;
use std::io::Write;

// A step by writer 16, as a log and by `advance`.
fn steps(
    out: &mut impl Write,
    t: Table,
    present: &mut [bool; ROWS],
    values: &mut [Value; ROWS],
) -> io::Result<()> {
    let step = b"\x10\x03";
    run_printed(out, t, present, values, b"run:", step, &mut [99; 1], false)?;
    run_printed(
        out,
        t,
        present,
        values,
        b"advance:",
        step,
        &mut [99; 1],
        true,
    )?;
    Ok(())
}

// On a table whose last row of all is present, that of the last key, file group and timestamp: a step by writer 16, as a log and by `advance`,
// a point read of key 32, a scan with room and one without, the instant call, a clean at 129, and the candidate instants of writers 16 and 15. In range
// they give 10, 10, 12, the row, 31, the instant, 34, 10, and the lists, or 14 if writer 15 is ready.
pub fn tried(out: &mut impl Write, title: &[u8], t: Table) -> io::Result<()> {
    let mut present = [false; ROWS];
    let mut values: [Value; ROWS] = [0; ROWS];
    present[ROWS - 1] = true;
    values[ROWS - 1] = VALUE;
    report::title(out, title)?;
    steps(out, t, &mut present, &mut values)?;
    point_read(out, t, &present, &values, LAST as u64, 32)?;
    scan_into(out, t, &present, &values, LAST as u64, &mut [9; 4])?;
    scan_into(out, t, &present, &values, LAST as u64, &mut [9; 2])?;
    instant(out, t, LAST as u64)?;
    clean(out, t, &mut present, LAST as u64 + 1)?;
    choose(out, t, b"candidates of ", 16)?;
    choose(out, t, b"candidates of ", 15)
}

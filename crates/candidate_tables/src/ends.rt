// What commits and other endings leave noted.
use crate::looking::looking;
use crate::stepped::stepped;
use model::instants::{COMPLETED, INFLIGHT};
use model::limits::{NOTED, TIMESTAMPS, WRITERS};
use model::{Mode, Table};
use std::io;
use std::io::Write;

// Writer 3 is at its commit step; it has a count and a noted timestamp, and two timestamps have places.
fn at_commit(mode: Mode, ts: u8) -> Table {
    let mut t = looking(mode, 6, ts, 128);
    t.places[1] = 66;
    t.places[99] = 55;
    t.counts[3] = 4;
    t.noted[57] = 2;
    t
}

// Its instant, which has a place already, is inflight, requested, completed or not there.
fn commits(out: &mut impl Write, mode: Mode) -> io::Result<()> {
    let log = b"\x03\x08";
    let mut t = at_commit(mode, 3);
    t.places[2] = 77;
    stepped(out, t, b"its instant is inflight:", log)?;
    t = at_commit(mode, 4);
    t.places[3] = 77;
    stepped(out, t, b"it is requested:", log)?;
    t = at_commit(mode, 5);
    t.places[4] = 77;
    stepped(out, t, b"it is completed:", log)?;
    t = at_commit(mode, 7);
    t.places[6] = 77;
    stepped(out, t, b"there is none:", log)?;
    Ok(())
}

// All 128 timestamps are completed, or all but its own.
fn last_commits(out: &mut impl Write, mode: Mode) -> io::Result<()> {
    let log = b"\x03\x08";
    let mut timeline = [COMPLETED + 2; TIMESTAMPS];
    let mut t = at_commit(mode, 1);
    t.timeline = timeline;
    t.places[0] = 77;
    stepped(out, t, b"all are completed:", log)?;
    timeline[TIMESTAMPS - 1] = INFLIGHT + 2;
    t = at_commit(mode, 128);
    t.timeline = timeline;
    t.places[127] = 77;
    stepped(out, t, b"all but the last are completed:", log)?;
    Ok(())
}

// Every writer has a count and a row of noted timestamps; writer 3 is at its look up.
fn all_noted(mode: Mode) -> Table {
    let counts = [6u8; WRITERS];
    let noted = [7u8; NOTED];
    let mut t = looking(mode, 1, 5, 9);
    t.places[0] = 9;
    t.places[4] = 8;
    t.places[127] = 7;
    t.counts = counts;
    t.noted = noted;
    t
}

// The numbers of others stay, those of writer 3 until it ends. `walk` leads to its commit, `going_on` to the step before.
fn others(out: &mut impl Write, mode: Mode, walk: &[u8], going_on: &[u8]) -> io::Result<()> {
    let t = all_noted(mode);
    stepped(out, t, b"it gives up:", b"\x03\x09")?;
    stepped(out, t, b"it commits:", walk)?;
    stepped(out, t, b"it goes on:", going_on)?;
    stepped(out, t, b"refused:", b"\x03\x02\x01\x09\x08")?;
    Ok(())
}

pub fn of_each_mode(out: &mut impl Write) -> io::Result<()> {
    report::title(out, b"Commits: optimistic")?;
    commits(out, Mode::Optimistic)?;
    last_commits(out, Mode::Optimistic)?;
    report::title(out, b"Numbers of others: optimistic")?;
    others(
        out,
        Mode::Optimistic,
        b"\x03\x03\x03\x04\x03\x05\x03\x06\x03\x07\x03\x08",
        b"\x03\x03\x03\x04\x03\x05\x03\x06\x03\x07",
    )?;
    report::title(out, b"Commits: pessimistic")?;
    commits(out, Mode::Pessimistic)?;
    last_commits(out, Mode::Pessimistic)?;
    report::title(out, b"Numbers of others: pessimistic")?;
    others(
        out,
        Mode::Pessimistic,
        b"\x03\x03\x03\x04\x03\x05\x03\x06\x03\x08",
        b"\x03\x03\x03\x04\x03\x05\x03\x06",
    )
}

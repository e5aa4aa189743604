// What becomes of the locks at each step of one writer, which holds some of them.
use model::instants::COMPLETED;
use model::limits::GROUPS;
use model::{Mode, Table, Writer};
use set_by_hand::{bare, putting, removing, run_bare};
use std::io;
use std::io::Write;

// Runs a log of one step on a table without rows, and prints the locks after it.
fn locks_after(
    out: &mut impl Write,
    t: Table,
    label: &[u8],
    log: &[u8],
    by_steps: bool,
) -> io::Result<()> {
    let after = run_bare(out, t, label, log, by_steps)?;
    let locks = after.locks;
    report::answers(out, b"locks:", &locks, GROUPS)
}

// A step of writer 3 in a table with these locks, as a log and by `advance`. Timestamp 2 is completed in group 4, and key 5 is indexed to group 6.
fn one_step(
    out: &mut impl Write,
    mode: Mode,
    locks: [u8; GROUPS],
    x: Writer,
    label: &[u8],
    log: &[u8],
) -> io::Result<()> {
    let mut t = bare(mode, 2);
    t.locks = locks;
    t.timeline[1] = COMPLETED + 4;
    t.index[5] = 7;
    t.writers[3] = x;
    locks_after(out, t, label, log, false)?;
    locks_after(out, t, label, log, true)
}

// A writer at a phase of a put of key 1 in group 4, and one at a phase of a remove of key 9, which is not indexed.
fn put(phase: u8) -> Writer {
    putting(phase, 1, 11, 4, 1, 0)
}

fn remove(phase: u8) -> Writer {
    removing(phase, 9, 4, 1, 0)
}

// Writer 3 commits, gives up, ends with 2 at its look up and at its index step, with 3, with 4 and with 5, or is refused.
fn endings(out: &mut impl Write, title: &[u8], mode: Mode, locks: [u8; GROUPS]) -> io::Result<()> {
    let indexed = putting(4, 5, 50, 4, 1, 0);
    report::title(out, title)?;
    one_step(out, mode, locks, put(6), b"commit:", b"\x03\x08")?;
    one_step(out, mode, locks, put(3), b"give up:", b"\x03\x09")?;
    one_step(
        out,
        mode,
        locks,
        remove(1),
        b"remove's look up:",
        b"\x03\x03",
    )?;
    one_step(
        out,
        mode,
        locks,
        remove(4),
        b"remove's index step:",
        b"\x03\x06",
    )?;
    one_step(out, mode, locks, put(2), b"read:", b"\x03\x04")?;
    one_step(out, mode, locks, indexed, b"index step:", b"\x03\x06")?;
    one_step(out, mode, locks, put(5), b"check:", b"\x03\x07")
}

// An ending frees every lock that names the writer, also those of groups in an optimistic table, and no other lock. Writer 3 holds the even locks,
// the odd ones, or all; writer 7 holds the others.
fn freed(
    out: &mut impl Write,
    mode: Mode,
    even_title: &[u8],
    odd_title: &[u8],
    all_title: &[u8],
) -> io::Result<()> {
    endings(out, even_title, mode, [4, 8, 4, 8, 4, 8, 4, 8])?;
    endings(out, odd_title, mode, [8, 4, 8, 4, 8, 4, 8, 4])?;
    endings(out, all_title, mode, [4; GROUPS])
}

// A step that goes on leaves every lock but the one that it takes. Writer 3, in group 5, holds the first lock and the last, writer 7 the one before it.
fn kept(out: &mut impl Write, title: &[u8], mode: Mode) -> io::Result<()> {
    let locks = [4, 0, 0, 0, 0, 0, 8, 4];
    report::title(out, title)?;
    one_step(
        out,
        mode,
        locks,
        removing(0, 0, 0, 0, 0),
        b"start:",
        b"\x03\x01\x01\x0b\x05",
    )?;
    one_step(out, mode, locks, in_group_5(1), b"look up:", b"\x03\x03")?;
    one_step(out, mode, locks, in_group_5(2), b"read:", b"\x03\x04")?;
    one_step(out, mode, locks, in_group_5(3), b"write:", b"\x03\x05")?;
    one_step(out, mode, locks, in_group_5(4), b"index step:", b"\x03\x06")?;
    one_step(out, mode, locks, in_group_5(5), b"check:", b"\x03\x07")
}

// A writer at a phase of a put in group 5.
fn in_group_5(phase: u8) -> Writer {
    putting(phase, 1, 11, 5, 1, 0)
}

// Both, in either mode.
pub fn of_each_mode(out: &mut impl Write) -> io::Result<()> {
    freed(
        out,
        Mode::Optimistic,
        b"Locks of an ending: optimistic, the even locks are the writer's",
        b"Locks of an ending: optimistic, the odd locks are the writer's",
        b"Locks of an ending: optimistic, all locks are the writer's",
    )?;
    kept(
        out,
        b"Locks of a step that goes on: optimistic",
        Mode::Optimistic,
    )?;
    freed(
        out,
        Mode::Pessimistic,
        b"Locks of an ending: pessimistic, the even locks are the writer's",
        b"Locks of an ending: pessimistic, the odd locks are the writer's",
        b"Locks of an ending: pessimistic, all locks are the writer's",
    )?;
    kept(
        out,
        b"Locks of a step that goes on: pessimistic",
        Mode::Pessimistic,
    )
}

// Numbers of a table: its last timestamp, its index, its timeline, its horizon and its locks.
ghost use Rattle.std.specs.Prelude.{◌<◌};
ghost use Rattle.model.specs.Limits.{groups};

use crate::largest::{
    ENTRY, GROUP, INSTANT, KEY, LAST, LOCK, PHASE, changed, largest, largest_writer, one_left,
    table_of, writer,
};
use crate::tried::tried;
use model::instants::REQUESTED;
use model::{Mode, Table};
use std::io;
use std::io::Write;

// A table of a mode with the largest numbers but for a lock, which is above its limit.
fn with_lock(mode: Mode, slot: usize) -> Table
    requires { slot < groups }
{
    changed(largest(mode), |t| t.locks[slot] = LOCK + 1)
}

pub fn numbers(out: &mut impl Write) -> io::Result<()> {
    let x = largest_writer();
    let y = writer(PHASE, KEY, GROUP, LAST - 1, LAST - 1);
    tried(out, b"17: no ground", table_of(LAST, ENTRY, INSTANT, x, x))?;
    tried(
        out,
        b"17: last timestamp",
        table_of(LAST + 1, ENTRY, INSTANT, x, x),
    )?;
    tried(out, b"17: lock", with_lock(Mode::Optimistic, 0))?;
    tried(
        out,
        b"17: index entry",
        table_of(LAST, ENTRY + 1, INSTANT, x, x),
    )?;
    tried(
        out,
        b"17: group of an instant",
        table_of(LAST, ENTRY, INSTANT + 1, x, x),
    )?;
    tried(
        out,
        b"17: instant above the last timestamp",
        table_of(LAST - 1, ENTRY, REQUESTED, y, y),
    )
}

// A horizon above the last timestamp, in either mode.
pub fn horizon(out: &mut impl Write) -> io::Result<()> {
    tried(
        out,
        b"17: horizon",
        changed(one_left(), |t| t.horizon = LAST),
    )?;
    tried(
        out,
        b"17: horizon, pessimistic",
        changed(largest(Mode::Pessimistic), |t| t.horizon = LAST + 1),
    )
}

// Every lock has the same limit, in either mode.
pub fn locks(out: &mut impl Write) -> io::Result<()> {
    tried(out, b"17: lock 3", with_lock(Mode::Optimistic, 3))?;
    tried(out, b"17: lock 7", with_lock(Mode::Optimistic, 7))?;
    tried(
        out,
        b"17: no ground, pessimistic",
        largest(Mode::Pessimistic),
    )?;
    tried(
        out,
        b"17: lock 0, pessimistic",
        with_lock(Mode::Pessimistic, 0),
    )?;
    tried(
        out,
        b"17: lock 3, pessimistic",
        with_lock(Mode::Pessimistic, 3),
    )?;
    tried(
        out,
        b"17: lock 7, pessimistic",
        with_lock(Mode::Pessimistic, 7),
    )
}

// Numbers that the candidate instants rest on: the first and the last of each kind.
use crate::largest::{LAST, changed, largest, one_left};
use crate::tried::tried;
use model::Mode;
use model::limits::{NOTED, TIMESTAMPS, WRITERS};
use std::io;
use std::io::Write;

pub fn numbers(out: &mut impl Write) -> io::Result<()> {
    let t = largest(Mode::Optimistic);
    let above = LAST + 1;
    tried(
        out,
        b"17: place of the first timestamp",
        changed(t, |t| t.places[0] = above),
    )?;
    tried(
        out,
        b"17: place of the last timestamp",
        changed(t, |t| t.places[TIMESTAMPS - 1] = above),
    )?;
    tried(
        out,
        b"17: count of the first writer",
        changed(t, |t| t.counts[0] = above),
    )?;
    tried(
        out,
        b"17: count of the last writer",
        changed(t, |t| t.counts[WRITERS - 1] = above),
    )?;
    tried(
        out,
        b"17: first noted timestamp",
        changed(t, |t| t.noted[0] = above),
    )?;
    tried(
        out,
        b"17: last noted timestamp",
        changed(t, |t| t.noted[NOTED - 1] = above),
    )
}

// A noted timestamp above the last one issued, though a table may issue it; and the place of one that is not issued.
pub fn with_one_left(out: &mut impl Write) -> io::Result<()> {
    let t = one_left();
    tried(
        out,
        b"17: first noted timestamp, one timestamp left",
        changed(t, |t| t.noted[0] = LAST),
    )?;
    tried(
        out,
        b"17: last noted timestamp, one timestamp left",
        changed(t, |t| t.noted[NOTED - 1] = LAST),
    )?;
    tried(
        out,
        b"17: place of the last timestamp, one timestamp left",
        changed(t, |t| t.places[TIMESTAMPS - 1] = LAST + 1),
    )
}

pub fn pessimistic(out: &mut impl Write) -> io::Result<()> {
    let t = largest(Mode::Pessimistic);
    let above = LAST + 1;
    tried(
        out,
        b"17: place of the last timestamp, pessimistic",
        changed(t, |t| t.places[TIMESTAMPS - 1] = above),
    )?;
    tried(
        out,
        b"17: count of the last writer, pessimistic",
        changed(t, |t| t.counts[WRITERS - 1] = above),
    )?;
    tried(
        out,
        b"17: last noted timestamp, pessimistic",
        changed(t, |t| t.noted[NOTED - 1] = above),
    )
}

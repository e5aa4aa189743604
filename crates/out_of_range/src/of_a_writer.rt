// Numbers of a writer, with an operation in progress and ready.
use crate::largest::{
    GROUP, KEY, LAST, PHASE, one_left, one_left_with_writer, with_writer, writer,
};
use crate::tried::tried;
use std::io;
use std::io::Write;

pub fn numbers(out: &mut impl Write) -> io::Result<()> {
    tried(
        out,
        b"17: phase",
        with_writer(writer(PHASE + 1, KEY, GROUP, LAST, LAST)),
    )?;
    tried(
        out,
        b"17: key",
        with_writer(writer(PHASE, KEY + 1, GROUP, LAST, LAST)),
    )?;
    tried(
        out,
        b"17: group",
        with_writer(writer(PHASE, KEY, GROUP + 1, LAST, LAST)),
    )?;
    tried(out, b"17: no ground, one timestamp left", one_left())?;
    tried(
        out,
        b"17: timestamp",
        one_left_with_writer(writer(PHASE, KEY, GROUP, LAST, LAST - 1)),
    )?;
    tried(
        out,
        b"17: base",
        one_left_with_writer(writer(PHASE, KEY, GROUP, LAST - 1, LAST)),
    )?;
    tried(
        out,
        b"17: timestamp 0",
        with_writer(writer(PHASE, KEY, GROUP, 0, LAST)),
    )?;
    tried(
        out,
        b"17: no ground, timestamp 0 at phase 0",
        with_writer(writer(0, KEY, GROUP, 0, LAST)),
    )
}

// A ready writer's numbers have the same limits.
pub fn ready(out: &mut impl Write) -> io::Result<()> {
    tried(
        out,
        b"17: key at phase 0",
        with_writer(writer(0, KEY + 1, GROUP, LAST, LAST)),
    )?;
    tried(
        out,
        b"17: group at phase 0",
        with_writer(writer(0, KEY, GROUP + 1, LAST, LAST)),
    )?;
    tried(
        out,
        b"17: timestamp at phase 0",
        one_left_with_writer(writer(0, KEY, GROUP, LAST, LAST - 1)),
    )?;
    tried(
        out,
        b"17: base at phase 0",
        one_left_with_writer(writer(0, KEY, GROUP, LAST - 1, LAST)),
    )
}

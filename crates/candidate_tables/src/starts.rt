// What starts leave noted.
use crate::looking::{looking, writing};
use crate::stepped::stepped;
use model::Mode;
use model::instants::{COMPLETED, NONE};
use model::limits::TIMESTAMPS;
use scripts::choose;
use set_by_hand::{bare, putting};
use std::io;
use std::io::Write;

// Writer 3 is ready, and has a timestamp, a count and noted timestamps; writers 0 and 15 have operations in progress.
pub fn beside_a_ready_writer(out: &mut impl Write) -> io::Result<()> {
    let mut t = looking(Mode::Optimistic, 0, 5, 9);
    t.writers[0] = putting(1, 1, 10, 1, 4, 0);
    t.writers[15] = putting(6, 1, 10, 1, 9, 0);
    t.counts[3] = 9;
    t.noted[50] = 8;
    t.noted[51] = 8;
    t.places[0] = 1;
    t.places[3] = 128;
    report::title(out, b"Starts beside a ready writer that holds a timestamp")?;
    stepped(out, t, b"writer 2 starts:", b"\x02\x01\x01\x0a\x01")?;
    stepped(out, t, b"the ready writer starts:", b"\x03\x01\x01\x0a\x01")?;
    stepped(out, t, b"both start:", b"\x03\x02\x01\x02\x01\x01\x0a\x01")?;
    Ok(())
}

// Of 128 timestamps 127 are issued, and all of them completed.
pub fn all_but_one(out: &mut impl Write) -> io::Result<()> {
    let mut timeline = [COMPLETED + 7; TIMESTAMPS];
    timeline[TIMESTAMPS - 1] = NONE;
    let mut t = bare(Mode::Optimistic, 127);
    t.timeline = timeline;
    report::title(out, b"A start where all but one timestamp are completed")?;
    stepped(out, t, b"start:", b"\x09\x01\x01\x0a\x01")?;
    Ok(())
}

// Writers 3 and 4 hold timestamp 5. Writer 0 starts, and writer 4 commits.
pub fn two_holders(out: &mut impl Write) -> io::Result<()> {
    let mut t = writing();
    t.writers[4] = putting(6, 1, 10, 1, 5, 0);
    report::title(out, b"Two holders of one timestamp")?;
    let after = stepped(out, t, b"a start, and a commit:", b"\x00\x02\x01\x04\x08")?;
    choose(out, after, b"", 0)?;
    choose(out, after, b"", 3)?;
    choose(out, after, b"", 4)
}

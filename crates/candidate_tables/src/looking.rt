// The table that most stories begin with.
use model::instants::{COMPLETED, INFLIGHT, REQUESTED};
use model::{Mode, Table};
use set_by_hand::{bare, putting};

// Timestamps 1, 2, 5, 6 and 9 are completed, 3 is inflight and 4 requested. Writer 3 is at a phase, with a timestamp.
pub fn looking(mode: Mode, phase: u8, ts: u8, last: u8) -> Table {
    let mut t = bare(mode, last);
    t.timeline[0] = COMPLETED + 1;
    t.timeline[1] = COMPLETED + 2;
    t.timeline[2] = INFLIGHT + 3;
    t.timeline[3] = REQUESTED;
    t.timeline[4] = COMPLETED + 5;
    t.timeline[5] = COMPLETED + 6;
    t.timeline[8] = COMPLETED + 1;
    t.writers[3] = putting(phase, 9, 90, 7, ts, 0);
    t
}

// The same in an optimistic table, with writer 3 at its write step under timestamp 5.
pub fn writing() -> Table {
    looking(Mode::Optimistic, 3, 5, 9)
}

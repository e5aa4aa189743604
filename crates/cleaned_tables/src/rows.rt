// Which rows are dropped.
use model::Mode;
use model::instants::{COMPLETED, INFLIGHT};
use set_by_hand::{bare, clean_story, putting};
use std::io;
use std::io::Write;

// Of timestamp 2, completed in file group 3, every group from 2 to 4 has a slice: those of groups 2 and 4, whose rows stand right beside, are not
// completed. The groups' other slices and the one before it in group 3 have rows too.
pub fn beside(out: &mut impl Write) -> io::Result<()> {
    let rows = b"\
        \x03\x01\x05\x0a\x07\x01\x1f\x0b\x02\x02\x00\x14\x02\x02\x1f\x15\
        \x03\x02\x00\x16\x03\x02\x0f\x17\x03\x02\x1f\x18\x04\x02\x00\x19\
        \x04\x02\x1f\x1a\x00\x03\x00\x1e\x03\x03\x01\x1f\x03\x04\x02\x28";
    let mut t = bare(Mode::Optimistic, 5);
    t.timeline[0] = COMPLETED + 7;
    t.timeline[1] = COMPLETED + 3;
    t.timeline[2] = COMPLETED + 3;
    t.timeline[3] = INFLIGHT + 3;
    clean_story(
        out,
        b"A dropped slice and the rows beside it",
        t,
        rows,
        b"\x01\x02\x03\x05",
        b"as it is:;",
        2,
        5,
    )
}

// The first slice of all and the last but one are dropped.
pub fn first_and_last(out: &mut impl Write) -> io::Result<()> {
    let rows = b"\
        \x00\x01\x00\x0a\x00\x01\x1f\x0b\x00\x02\x00\x0c\x07\x7f\x00\x0d\
        \x07\x7f\x1f\x0e\x07\x80\x00\x0f\x07\x80\x1f\x10";
    let mut t = bare(Mode::Pessimistic, 128);
    t.timeline[0] = COMPLETED;
    t.timeline[1] = COMPLETED;
    t.timeline[126] = COMPLETED + 7;
    t.timeline[127] = COMPLETED + 7;
    clean_story(
        out,
        b"The first slice and the last",
        t,
        rows,
        b"\x00\x01\x02\x7f\x80\x81",
        b"as it is:;",
        127,
        129,
    )
}

// Timestamp 2 is completed and has no slice: it is the newest of file group 3 all the same. It is the base of writer 0.
pub fn not_stored(out: &mut impl Write) -> io::Result<()> {
    let script = b"as it is:;writer 0 commits:\x00\x05\x00\x06\x00\x07\x00\x08;";
    let mut t = bare(Mode::Optimistic, 3);
    t.timeline[0] = COMPLETED + 3;
    t.timeline[1] = COMPLETED + 3;
    t.timeline[2] = INFLIGHT + 3;
    t.writers[0] = putting(3, 2, 20, 3, 3, 2);
    clean_story(
        out,
        b"A completed instant without a slice",
        t,
        b"\x03\x01\x01\x0a",
        b"\x01\x02\x03",
        script,
        2,
        3,
    )
}

// No clean has been through the slices below the horizon.
pub fn horizon_set(out: &mut impl Write) -> io::Result<()> {
    let mut t = bare(Mode::Optimistic, 4);
    t.horizon = 3;
    t.timeline[0] = COMPLETED + 3;
    t.timeline[1] = COMPLETED + 3;
    t.timeline[2] = COMPLETED + 3;
    t.timeline[3] = COMPLETED + 3;
    clean_story(
        out,
        b"A horizon that no clean has set",
        t,
        b"\x03\x01\x01\x0a\x03\x02\x01\x0b\x03\x03\x01\x0c\x03\x04\x01\x0d",
        b"\x02\x05\x03",
        b"as it is:;key 1 is put:\x00\x01\x01\x0e\x03\x00\x03\x00\x04\x00\x05\x00\x06\x00\x07\x00\x08;",
        1,
        5,
    )
}

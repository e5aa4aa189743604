// Tables whose locks no step has given to their holders.
use model::instants::{COMPLETED, INFLIGHT, REQUESTED};
use model::{Mode, Table};
use set_by_hand::{bare, putting, removing, story};
use std::io;
use std::io::Write;

// Writer 2 holds the lock, with no operation. Writer 0 is at its commit step, writer 1, with a remove, at its check.
fn held() -> Table {
    let mut t = bare(Mode::Optimistic, 3);
    t.locks[0] = 3;
    t.timeline[0] = COMPLETED + 4;
    t.timeline[1] = INFLIGHT + 4;
    t.timeline[2] = INFLIGHT + 6;
    t.writers[0] = putting(6, 1, 11, 4, 2, 1);
    t.writers[1] = removing(5, 2, 4, 3, 1);
    t
}

// Others commit, end and give up, and the lock stays with its holder until that gives up.
pub fn held_by_none(out: &mut impl Write) -> io::Result<()> {
    let title = b"A lock whose holder has no operation";
    let script = b"\
        as it is:;\
        writer 0 commits:\x00\x08;\
        writer 1's check fails:\x01\x07;\
        writer 3 is at its index step:\x03\x01\x07\x46\x04\x03\x03\x03\x04\x03\x05\x03\x06;\
        writer 3 gives up:\x03\x09;\
        the holder is not refused:\x02\x01\x08\x50\x04\x02\x03\x02\x04\x02\x05\x02\x06;\
        it gives up:\x02\x09;\
        the lock is free:\x03\x01\x07\x46\x04\x03\x03\x03\x04\x03\x05\x03\x06\x03\x07\x03\x08;";
    story(
        out,
        title,
        held(),
        &[4, 1, 1, 10, 4, 2, 1, 11],
        script,
        1,
        6,
    )
}

// In a pessimistic table writer 0, at its commit in group 2, holds the locks of groups 2 and 5, for which writers 1 and 2 wait.
pub fn two_held(out: &mut impl Write) -> io::Result<()> {
    let title = b"A writer that holds two locks";
    let script = b"\
        writers 1 and 2 wait:\x01\x04\x02\x04;\
        writer 0 commits:\x00\x08;\
        both locks are free:\x01\x04\x02\x04;\
        both commit:\x01\x05\x01\x06\x01\x08\x02\x05\x02\x06\x02\x08;";
    let mut t = bare(Mode::Pessimistic, 3);
    t.locks[2] = 1;
    t.locks[5] = 1;
    t.timeline[0] = INFLIGHT + 2;
    t.writers[0] = putting(6, 1, 11, 2, 1, 0);
    t.writers[1] = putting(2, 2, 20, 2, 2, 0);
    t.writers[2] = putting(2, 3, 30, 5, 3, 0);
    story(out, title, t, &[2, 1, 1, 11], script, 1, 3)
}

// No step of a pessimistic table leads to phase 5: whoever stands there can only give up.
pub fn at_phase_5(out: &mut impl Write) -> io::Result<()> {
    let title = b"A pessimistic writer at phase 5";
    let script = b"\
        its check and its commit are refused:\x00\x07\x00\x08;\
        writer 1 waits:\x01\x04;\
        writer 0 gives up:\x00\x09;\
        writer 1 commits:\x01\x04\x01\x05\x01\x06\x01\x08;";
    let mut t = bare(Mode::Pessimistic, 2);
    t.locks[2] = 1;
    t.timeline[0] = INFLIGHT + 2;
    t.timeline[1] = REQUESTED;
    t.writers[0] = putting(5, 1, 11, 2, 1, 0);
    t.writers[1] = putting(2, 2, 20, 2, 2, 0);
    story(out, title, t, &[2, 1, 1, 11], script, 1, 2)
}

// Writer 0, at its read, holds its group's lock already. Writer 7, with no operation, holds those of writer 1, at its index step, and of writer 2, at
// its read, which is too late.
fn pessimistic() -> Table {
    let mut t = bare(Mode::Pessimistic, 4);
    t.locks[2] = 1;
    t.locks[3] = 8;
    t.locks[4] = 8;
    t.timeline[1] = COMPLETED + 4;
    t.writers[0] = putting(2, 1, 11, 2, 3, 0);
    t.writers[1] = putting(4, 2, 21, 3, 4, 0);
    t.writers[2] = putting(2, 3, 31, 4, 1, 0);
    t
}

// The index step asks for no lock; a read asks for its group's before it looks for a later commit.
pub fn held_by_another(out: &mut impl Write) -> io::Result<()> {
    let title = b"Pessimistic writers and locks that no steps give";
    let script = b"\
        writer 0 holds its lock already:\x00\x04;\
        writer 1's lock is another's:\x01\x06\x01\x08;\
        writer 2 is too late, and waits:\x02\x04;\
        the holder starts, and gives up:\x07\x02\x09\x07\x09;\
        writer 2 is too late:\x02\x04;\
        writer 0 commits:\x00\x05\x00\x06\x00\x08;";
    story(
        out,
        title,
        pessimistic(),
        &[4, 2, 8, 80, 3, 4, 2, 21],
        script,
        2,
        4,
    )
}

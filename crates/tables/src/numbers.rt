// A table in range with numbers that no steps give.
use model::instants::COMPLETED;
use model::{Mode, Table};
use set_by_hand::{bare, putting, removing, story};
use std::io;
use std::io::Write;

// Timestamps 3 to 5 are issued and have no instant. Writer 0, at its read step, holds timestamp 1, which is completed in its own file group.
// Writer 1, at its index step, has a remove of a key that is not indexed. Writer 3 has a base above its timestamp, and its slice has a row already.
// Writer 15 is ready and keeps numbers.
fn table_with() -> Table {
    let mut t = bare(Mode::Optimistic, 5);
    t.timeline[0] = COMPLETED + 2;
    t.timeline[1] = COMPLETED + 3;
    t.writers[0] = putting(2, 4, 41, 2, 1, 5);
    t.writers[1] = removing(4, 9, 2, 4, 0);
    t.writers[3] = putting(3, 8, 80, 2, 4, 5);
    t.writers[15] = putting(0, 31, 7, 7, 5, 5);
    t
}

pub fn not_given(out: &mut impl Write) -> io::Result<()> {
    let title = b"Numbers that no steps give";
    let script = b"\
        as it is:;\
        writer 0 reads:\x00\x04;\
        writer 0 commits:\x00\x05\x00\x06\x00\x07\x00\x08;\
        writer 1's key is not indexed:\x01\x06;\
        writer 3 commits:\x03\x05\x03\x06\x03\x07\x03\x08;\
        key 9 is in no group:\x02\x01\x09\x5b\x03\x02\x03\x02\x04;\
        writer 15 starts anew:\x0f\x01\x1e\x46\x06\x0f\x03\x0f\x04\x0f\x05\x0f\x06\x0f\x07\x0f\x08;";
    story(
        out,
        title,
        table_with(),
        &[2, 1, 4, 40, 3, 2, 6, 60, 2, 4, 9, 90],
        script,
        1,
        7,
    )
}

// A table whose writers are said to have made an index entry that no step of theirs made.
use model::instants::COMPLETED;
use model::{Mode, Table, Writer};
use set_by_hand::{bare, putting, removing, story};
use std::io;
use std::io::Write;

// A writer that is said to have made its key's entry.
fn maker(x: Writer) -> Writer {
    let mut y = x;
    y.made = true;
    y
}

// Timestamp 5 is completed in file group 0, and keys 1 to 8 are indexed.
fn indexed() -> Table {
    let mut t = bare(Mode::Optimistic, 9);
    t.timeline[4] = COMPLETED;
    t.index[1] = 8;
    t.index[2] = 7;
    t.index[3] = 1;
    t.index[4] = 6;
    t.index[5] = 1;
    t.index[6] = 4;
    t.index[7] = 4;
    t.index[8] = 4;
    t
}

// Writers 0 to 4 end without commit: 0 and 1 give up, 2 is too late, 3's key is another group's, 4's check fails; the keys of 0, 1 and 3 are
// indexed to another file group than their own. Writer 5 is at its index step, and its entry is there; 6 is at its commit; 7 is ready.
fn made() -> Table {
    let mut t = indexed();
    t.writers[0] = maker(putting(1, 1, 11, 0, 1, 0));
    t.writers[1] = maker(putting(1, 2, 21, 0, 2, 0));
    t.writers[2] = maker(putting(2, 3, 31, 0, 3, 0));
    t.writers[3] = maker(putting(4, 4, 41, 4, 4, 0));
    t.writers[4] = maker(removing(5, 5, 0, 6, 0));
    t.writers[5] = maker(putting(4, 6, 61, 3, 7, 0));
    t.writers[6] = maker(putting(6, 7, 71, 3, 8, 0));
    t.writers[7] = maker(putting(0, 8, 81, 3, 9, 0));
    t
}

// Whoever ends without commit takes its key's entry out, whatever the entry names. A commit leaves it, and so does who gives up after an index
// step that found the entry there, or after a start.
pub fn said_to_be_made(out: &mut impl Write) -> io::Result<()> {
    let title = b"Writers that are said to have made an entry";
    let script = b"\
        writer 0 gives up:\x00\x09;\
        writer 1 gives up at phase 4:\x01\x03\x01\x04\x01\x05\x01\x09;\
        writer 2 is too late:\x02\x04;\
        writer 3's key is another group's:\x03\x06;\
        writer 4's check fails:\x04\x07;\
        writer 5 finds its entry, and gives up:\x05\x06\x05\x09;\
        writer 6 commits:\x06\x08;\
        writer 7 starts anew, and gives up:\x07\x01\x08\x52\x01\x07\x03\x07\x09;\
        keys 1 to 8 are put in group 1, or where they are:\
        \x0f\x01\x01\x65\x01\x0f\x03\x0f\x04\x0f\x05\x0f\x06\x0f\x07\x0f\x08\
        \x0f\x01\x02\x66\x01\x0f\x03\x0f\x04\x0f\x05\x0f\x06\x0f\x07\x0f\x08\
        \x0f\x01\x03\x67\x01\x0f\x03\x0f\x04\x0f\x05\x0f\x06\x0f\x07\x0f\x08\
        \x0f\x01\x04\x68\x01\x0f\x03\x0f\x04\x0f\x05\x0f\x06\x0f\x07\x0f\x08\
        \x0f\x01\x05\x69\x01\x0f\x03\x0f\x04\x0f\x05\x0f\x06\x0f\x07\x0f\x08\
        \x0f\x01\x06\x6a\x01\x0f\x03\x0f\x04\x0f\x05\x0f\x06\x0f\x07\x0f\x08\
        \x0f\x01\x07\x6b\x01\x0f\x03\x0f\x04\x0f\x05\x0f\x06\x0f\x07\x0f\x08\
        \x0f\x01\x08\x6c\x01\x0f\x03\x0f\x04\x0f\x05\x0f\x06\x0f\x07\x0f\x08;";
    story(out, title, made(), &[3, 8, 7, 71], script, 20, 20)
}

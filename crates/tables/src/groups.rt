// Tables whose slices only their file group and timestamp together tell apart.
use model::instants::{COMPLETED, INFLIGHT};
use model::limits::ROWS;
use model::{Mode, Table, Value};
use scripts::{point_read, scan_into};
use set_by_hand::{bare, putting, set_rows, story};
use std::io;
use std::io::Write;

// Timestamp 1 is completed in file group 0. Writer 1 holds it too, in group 1: what it writes is no slice of group 0.
pub fn completed_elsewhere(out: &mut impl Write) -> io::Result<()> {
    let title = b"A timestamp that is completed in another file group";
    let script =
        b"as it is:;writer 1 writes:\x01\x05;indexes:\x01\x06;checks:\x01\x07;commits:\x01\x08;";
    let mut t = bare(Mode::Optimistic, 1);
    t.timeline[0] = COMPLETED;
    t.writers[1] = putting(3, 5, 55, 1, 1, 0);
    story(out, title, t, &[0, 1, 0, 10], script, 1, 1)
}

// Writer 0 in file group 0 has base 1, which is completed in group 1: group 0 has no slice there, so the base has no rows.
pub fn base_of_another_group(out: &mut impl Write) -> io::Result<()> {
    let title = b"A base of another file group";
    let script =
        b"as it is:;writer 0 writes:\x00\x05;indexes:\x00\x06;checks:\x00\x07;commits:\x00\x08;";
    let mut t = bare(Mode::Optimistic, 2);
    t.timeline[0] = COMPLETED + 1;
    t.timeline[1] = INFLIGHT;
    t.index[5] = 2;
    t.writers[0] = putting(3, 2, 9, 0, 2, 1);
    story(out, title, t, &[1, 1, 5, 7], script, 1, 2)
}

// Writers 0 and 1 hold timestamp 1, in file groups 0 and 1.
pub fn two_groups_at_once(out: &mut impl Write) -> io::Result<()> {
    let title = b"One timestamp, two writers, two file groups";
    let script = b"\
        as it is:;\
        writer 0 writes:\x00\x05;\
        writer 1 writes:\x01\x05;\
        writer 0 indexes:\x00\x06;\
        writer 1 waits:\x01\x06;\
        writer 0 checks:\x00\x07;\
        writer 0 commits:\x00\x08;\
        writer 1 indexes:\x01\x06;\
        writer 1 checks:\x01\x07;\
        writer 1 commits:\x01\x08;";
    let mut t = bare(Mode::Optimistic, 1);
    t.timeline[0] = INFLIGHT;
    t.writers[0] = putting(3, 0, 10, 0, 1, 0);
    t.writers[1] = putting(3, 5, 55, 1, 1, 0);
    story(out, title, t, &[], script, 1, 2)
}

// Point reads of key 1, and scans with room for one row and for two.
fn reads(out: &mut impl Write, t: Table, rows: &[u8]) -> io::Result<()> {
    let mut present = [false; ROWS];
    let mut values: [Value; ROWS] = [0; ROWS];
    set_rows(&mut present, &mut values, rows);
    point_read(out, t, &present, &values, 1, 1)?;
    point_read(out, t, &present, &values, 2, 1)?;
    point_read(out, t, &present, &values, 3, 1)?;
    scan_into(out, t, &present, &values, 2, &mut [9; 3])?;
    scan_into(out, t, &present, &values, 2, &mut [9; 6])
}

// Key 1 has a row in file group 6, of timestamp 1, and one in group 5, of timestamp 2: both are listed, the lower group first.
// Timestamp 3 is completed in group 5 and has no slice: no rows. Writer 0 is at its write step, with this base.
pub fn one_key_twice(out: &mut impl Write) -> io::Result<()> {
    let title = b"One key in two file groups, and a base with no slice";
    let script = b"as it is:;writer 0 commits:\x00\x05\x00\x06\x00\x07\x00\x08;";
    let rows = [6, 1, 1, 10, 5, 2, 1, 99];
    let mut t = bare(Mode::Optimistic, 4);
    t.timeline[0] = COMPLETED + 6;
    t.timeline[1] = COMPLETED + 5;
    t.timeline[2] = COMPLETED + 5;
    t.timeline[3] = INFLIGHT + 5;
    t.writers[0] = putting(3, 2, 20, 5, 4, 3);
    story(out, title, t, &rows, script, 1, 4)?;
    reads(out, t, &rows)
}

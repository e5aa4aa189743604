// Document 02's locks per group: stories of the pessimistic mode. No check step is taken.
use model::Mode;
use scripts::story;
use std::io;
use std::io::Write;

// A script from a fresh pessimistic table on.
fn pessimistic(
    out: &mut impl Write,
    title: &[u8],
    script: &[u8],
    first: u64,
    last: u64,
) -> io::Result<()> {
    story(out, Mode::Pessimistic, title, script, first, last)
}

pub fn conflicts(out: &mut impl Write) -> io::Result<()> {
    // Two keys, one proposed group: writer 1 cannot read before writer 0 has committed, and then it keeps writer 0's row.
    let p5 = b"\
        writer 0 has read:\x00\x01\x00\x0a\x00\x00\x03\x00\x04;\
        writer 1's read is refused:\x01\x01\x01\x0b\x00\x01\x03\x01\x04;\
        writer 0 commits:\x00\x05\x00\x06\x00\x08;\
        writer 1 reads, and commits:\x01\x04\x01\x05\x01\x06\x01\x08;";
    pessimistic(out, b"Locks per group: P5", p5, 1, 2)?;
    // One key, two proposed groups, both look up first; writer 0 commits.
    let p6 = b"\
        both have looked up:\x00\x01\x01\x0a\x00\x01\x01\x01\x0b\x01\x00\x03\x01\x03;\
        writer 0 commits:\x00\x04\x00\x05\x00\x06\x00\x08;\
        writer 1's index step:\x01\x04\x01\x05\x01\x06;\
        writer 2 finds the lock free:\x02\x01\x02\x14\x01\x02\x03\x02\x04\x02\x05\x02\x06\x02\x08;";
    pessimistic(out, b"Locks per group: P6", p6, 1, 3)?;
    // One key, one proposed group; timestamps 1 and 3 commit, then 2 reads: it is too late, and holds no lock.
    let p7 = b"\
        three have started:\x00\x01\x01\x0a\x03\x01\x01\x01\x0b\x03\x02\x01\x01\x0c\x03;\
        timestamp 1 commits:\x00\x03\x00\x04\x00\x05\x00\x06\x00\x08;\
        timestamp 3 commits:\x02\x03\x02\x04\x02\x05\x02\x06\x02\x08;\
        timestamp 2 reads:\x01\x03\x01\x04;\
        writer 3 finds the lock free:\x03\x01\x02\x14\x03\x03\x03\x03\x04\x03\x05\x03\x06\x03\x08;";
    pessimistic(out, b"Locks per group: P7", p7, 1, 4)
}

pub fn checks(out: &mut impl Write) -> io::Result<()> {
    // The bytes of a log mean the same steps in both modes.
    let printed = b"\
        its check step is refused:\x00\x01\x01\xac\x02\x02\x00\x03\x00\x04\x00\x05\x00\x06\x00\x07\x00\x08;";
    pessimistic(out, b"Locks per group: document 01's log", printed, 1, 1)?;
    // No step leads to phase 5.
    let script = b"\
        at phase 0:\x00\x07;\
        at phase 1:\x00\x01\x01\x0a\x01\x00\x07;\
        at phase 2:\x00\x03\x00\x07;\
        at phase 3:\x00\x04\x00\x07;\
        at phase 4:\x00\x05\x00\x07;\
        at phase 6:\x00\x06\x00\x07;\
        at phase 0 again:\x00\x08\x00\x07;";
    pessimistic(
        out,
        b"Locks per group: a check step at each phase",
        script,
        1,
        1,
    )
}

pub fn ends(out: &mut impl Write) -> io::Result<()> {
    // A writer gives up at each phase; from phase 3 on another then reads in its group. Its index entry is taken out.
    let script = b"\
        at phases 1 and 2:\x00\x01\x01\x0a\x03\x00\x09\x00\x01\x01\x0a\x03\x00\x03\x00\x09;\
        at phase 3:\x00\x01\x01\x0a\x03\x00\x03\x00\x04\x00\x09\x01\x01\x02\x14\x03\x01\x03\x01\x04\x01\x09;\
        at phase 4:\x00\x01\x01\x0a\x03\x00\x03\x00\x04\x00\x05\x00\x09\x01\x01\x02\x14\x03\x01\x03\x01\x04\x01\x09;\
        at phase 6:\x00\x01\x01\x0a\x03\x00\x03\x00\x04\x00\x05\x00\x06\x00\x09\x01\x01\x02\x14\x03\x01\x03\x01\x04\x01\x09;\
        key 1 is in no group:\x02\x01\x01\x0b\x04\x02\x03\x02\x04\x02\x05\x02\x06\x02\x08;";
    pessimistic(out, b"Locks per group: giving up", script, 1, 7)?;
    // Writer 0 stands behind its read: writer 1 waits for as long, and writer 2 commits in another group.
    let stall = b"\
        writer 0 has read:\x00\x01\x01\x0a\x03\x00\x03\x00\x04;\
        writer 1 waits:\x01\x01\x02\x14\x03\x01\x03\x01\x04;\
        writer 2 commits in another group:\x02\x01\x03\x1e\x04\x02\x03\x02\x04\x02\x05\x02\x06\x02\x08;\
        writer 1 waits still:\x01\x04;\
        writer 2 commits again:\x02\x01\x03\x1f\x04\x02\x03\x02\x04\x02\x05\x02\x06\x02\x08;\
        writer 1 waits still:\x01\x04;\
        writer 0 commits:\x00\x05\x00\x06\x00\x08;\
        writer 1 commits:\x01\x04\x01\x05\x01\x06\x01\x08;";
    pessimistic(out, b"Locks per group: a writer that stalls", stall, 1, 4)
}

pub fn refusals(out: &mut impl Write) -> io::Result<()> {
    // Writer 0 is too late for its group, whose lock writer 2 holds.
    let script = b"\
        writer 0 has looked up:\x00\x01\x01\x0a\x03\x00\x03;\
        writer 1 commits:\x01\x01\x02\x14\x03\x01\x03\x01\x04\x01\x05\x01\x06\x01\x08;\
        writer 2 has read:\x02\x01\x03\x1e\x03\x02\x03\x02\x04;\
        10 and 14, not 19:\x10\x04\x01\x04\x02\x04;\
        19, not 3:\x00\x04;\
        writer 2 gives up:\x02\x09;\
        3:\x00\x04;";
    pessimistic(
        out,
        b"Locks per group: the order of the refusals",
        script,
        1,
        3,
    )
}

pub fn apart(out: &mut impl Write) -> io::Result<()> {
    // Two groups: both writers stand behind their index steps at once.
    let two_keys = b"\
        both have written:\x00\x01\x01\x0a\x00\x00\x03\x00\x04\x00\x05\x01\x01\x02\x14\x01\x01\x03\x01\x04\x01\x05;\
        both have indexed:\x00\x06\x01\x06;\
        both commit:\x01\x08\x00\x08;";
    pessimistic(
        out,
        b"Locks per group: index steps take no lock",
        two_keys,
        1,
        2,
    )?;
    // One key in two groups: the first index step has it.
    let one_key = b"\
        both have written:\x00\x01\x01\x0a\x00\x00\x03\x00\x04\x00\x05\x01\x01\x01\x0b\x01\x01\x03\x01\x04\x01\x05;\
        writer 1 has the key:\x01\x06\x00\x06;\
        writer 1 commits:\x01\x08;";
    pessimistic(
        out,
        b"Locks per group: one key, two file groups, both past their reads",
        one_key,
        1,
        2,
    )?;
    // Writers 0 to 7 hold the locks of groups 0 to 7, and writers 15 to 8 wait for them.
    let all_groups = b"\
        writers 0 to 7 have read:\
        \x00\x01\x00\x0a\x00\x00\x03\x00\x04\x01\x01\x01\x0b\x01\x01\x03\x01\x04\x02\x01\x02\x0c\x02\x02\x03\x02\x04\
        \x03\x01\x03\x0d\x03\x03\x03\x03\x04\x04\x01\x04\x0e\x04\x04\x03\x04\x04\x05\x01\x05\x0f\x05\x05\x03\x05\x04\
        \x06\x01\x06\x10\x06\x06\x03\x06\x04\x07\x01\x07\x11\x07\x07\x03\x07\x04;\
        writers 15 to 8 wait:\
        \x0f\x01\x0f\x14\x00\x0f\x03\x0f\x04\x0e\x01\x0e\x15\x01\x0e\x03\x0e\x04\x0d\x01\x0d\x16\x02\x0d\x03\x0d\x04\
        \x0c\x01\x0c\x17\x03\x0c\x03\x0c\x04\x0b\x01\x0b\x18\x04\x0b\x03\x0b\x04\x0a\x01\x0a\x19\x05\x0a\x03\x0a\x04\
        \x09\x01\x09\x1a\x06\x09\x03\x09\x04\x08\x01\x08\x1b\x07\x08\x03\x08\x04;\
        writer 3 commits:\x03\x05\x03\x06\x03\x08;\
        writer 12 reads, and no other:\x0f\x04\x0e\x04\x0d\x04\x0c\x04\x0b\x04\x0a\x04\x09\x04\x08\x04;\
        writer 7 gives up:\x07\x09;\
        writer 8 reads:\x08\x04;";
    pessimistic(
        out,
        b"Locks per group: a lock for each file group",
        all_groups,
        16,
        16,
    )
}

pub fn entries(out: &mut impl Write) -> io::Result<()> {
    // A remove waits for the lock of the group that it looked up, and its key's entry is taken out.
    let taken_out = b"\
        writer 0 has entered key 1:\x00\x01\x01\x0a\x00\x00\x03\x00\x04\x00\x05\x00\x06;\
        the remove waits:\x01\x02\x01\x01\x03\x01\x04;\
        writer 0 gives up:\x00\x09;\
        the remove ends:\x01\x04\x01\x05\x01\x06;\
        key 2 is put in its group:\x02\x01\x02\x14\x00\x02\x03\x02\x04\x02\x05\x02\x06\x02\x08;";
    pessimistic(
        out,
        b"Locks per group: a remove whose key is no longer indexed",
        taken_out,
        1,
        3,
    )?;
    // The same, but another put has the key in its own group before the remove goes on.
    let elsewhere = b"\
        writer 0 has entered key 1:\x00\x01\x01\x0a\x00\x00\x03\x00\x04\x00\x05\x00\x06;\
        the remove has looked up:\x01\x02\x01\x01\x03;\
        writer 0 gives up:\x00\x09;\
        key 1 is put in group 5:\x02\x01\x01\x0b\x05\x02\x03\x02\x04\x02\x05\x02\x06\x02\x08;\
        the remove ends:\x01\x04\x01\x05\x01\x06;";
    pessimistic(
        out,
        b"Locks per group: a remove whose key has gone to another group",
        elsewhere,
        1,
        3,
    )?;
    // A put that gives up has not made the entry of a key that is committed.
    let left = b"\
        key 1 is put in group 0:\x00\x01\x01\x0a\x00\x00\x03\x00\x04\x00\x05\x00\x06\x00\x08;\
        writer 1 gives up:\x01\x01\x01\x0b\x01\x01\x03\x01\x04\x01\x05\x01\x06\x01\x09;\
        key 1 is still in group 0:\x02\x01\x01\x0c\x02\x02\x03\x02\x04\x02\x05\x02\x06\x02\x08;";
    pessimistic(
        out,
        b"Locks per group: an entry that was there before",
        left,
        2,
        3,
    )
}

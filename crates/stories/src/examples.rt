// Source 002's examples. Writer n is 002's writer wn, or operation n; A, B, C are 10, 11, 12, and X, Y are 20, 21.
use model::Mode;
use scripts::story;
use std::io;
use std::io::Write;

pub fn two_keys_or_one(out: &mut impl Write) -> io::Result<()> {
    // Writers 1 and 2 put two keys into group 1, and both read while it has no slice.
    // Writer 1 commits; writer 2's check finds timestamp 1 above its base 0.
    let two_keys = b"\
        both have read:\x01\x01\x01\x0a\x01\x01\x03\x01\x04\x02\x01\x02\x14\x01\x02\x03\x02\x04;\
        writer 1 commits:\x01\x05\x01\x06\x01\x07\x01\x08;\
        writer 2's check fails:\x02\x05\x02\x06\x02\x07;";
    story(
        out,
        Mode::Optimistic,
        b"Case 2: two keys in one file group",
        two_keys,
        1,
        2,
    )?;
    // The same, but both put key 1, as 002's list of parameters has it.
    // Writer 2's index step is taken, since the key is in its own group; its check fails.
    let one_key = b"\
        both have read:\x01\x01\x01\x0a\x01\x01\x03\x01\x04\x02\x01\x01\x0b\x01\x02\x03\x02\x04;\
        writer 1 commits:\x01\x05\x01\x06\x01\x07\x01\x08;\
        writer 2's check fails:\x02\x05\x02\x06\x02\x07;";
    story(out, Mode::Optimistic, b"Case 2: one key", one_key, 1, 2)
}

pub fn lost_write(out: &mut impl Write) -> io::Result<()> {
    // Both read and write before either commits. Without a check writer 2 would commit a slice without key 1.
    // Here its check fails, and its commit step no longer fits its phase.
    let in_order = b"\
        both have written:\x01\x01\x01\x0a\x01\x02\x01\x02\x14\x01\x01\x03\x02\x03\x01\x04\x02\x04\x01\x05\x02\x05;\
        writer 1 commits:\x01\x06\x01\x07\x01\x08;\
        writer 2 ends:\x02\x06\x02\x07\x02\x08;";
    story(out, Mode::Optimistic, b"Case 1's order", in_order, 1, 2)?;
    // The same, but writer 2, with the later timestamp, commits first: writer 1's check fails.
    let swapped = b"\
        both have written:\x01\x01\x01\x0a\x01\x02\x01\x02\x14\x01\x01\x03\x02\x03\x01\x04\x02\x04\x01\x05\x02\x05;\
        writer 2 commits:\x02\x06\x02\x07\x02\x08;\
        writer 1 ends:\x01\x06\x01\x07\x01\x08;";
    story(
        out,
        Mode::Optimistic,
        b"Case 1's order, commits swapped",
        swapped,
        1,
        2,
    )
}

pub fn two_groups(out: &mut impl Write) -> io::Result<()> {
    // Writers 1 and 2 put key 1, proposing groups 1 and 2, and both look it up before it is indexed.
    // Writer 1 commits; writer 2's index step finds the key in group 1.
    let lock_free = b"\
        both have looked up:\x01\x01\x01\x0a\x01\x01\x03\x02\x01\x01\x0a\x02\x02\x03;\
        writer 1 commits:\x01\x04\x01\x05\x01\x06\x01\x07\x01\x08;\
        writer 2's index step fails:\x02\x04\x02\x05\x02\x06;";
    story(
        out,
        Mode::Optimistic,
        b"Case 3's order: one key, two file groups",
        lock_free,
        1,
        2,
    )?;
    // The same, but writer 2 comes to its index step while writer 1 holds the lock: it is refused and keeps its phase.
    // After writer 1's commit the same step ends it.
    let lock_held = b"\
        writer 1 holds the lock:\x01\x01\x01\x0a\x01\x01\x03\x02\x01\x01\x0a\x02\x02\x03\x01\x04\x01\x05\x01\x06;\
        writer 2 waits:\x02\x04\x02\x05\x02\x06;\
        writer 1 commits:\x01\x07\x01\x08;\
        writer 2's index step fails:\x02\x06;";
    story(
        out,
        Mode::Optimistic,
        b"Case 3's order, lock held",
        lock_held,
        1,
        2,
    )
}

pub fn out_of_order(out: &mut impl Write) -> io::Result<()> {
    // Operations 2 and 3 have timestamps 2 and 3, and 3 completes first.
    // Operation 2's read finds timestamp 3 above its own.
    let before_the_read = b"\
        operation 1 is complete:\x01\x01\x01\x0a\x01\x01\x03\x01\x04\x01\x05\x01\x06\x01\x07\x01\x08;\
        2 and 3 have timestamps:\x02\x01\x01\x0b\x01\x03\x01\x01\x0c\x01;\
        operation 3 is complete:\x03\x03\x03\x04\x03\x05\x03\x06\x03\x07\x03\x08;\
        operation 2 is too late:\x02\x03\x02\x04;";
    story(
        out,
        Mode::Optimistic,
        b"Out of order, one key",
        before_the_read,
        1,
        3,
    )?;
    // The same, but operation 2 has read, with base 1, before operation 3 completes.
    // Its check finds timestamp 3 above its base.
    let after_the_read = b"\
        operation 1 is complete:\x01\x01\x01\x0a\x01\x01\x03\x01\x04\x01\x05\x01\x06\x01\x07\x01\x08;\
        operation 2 has read:\x02\x01\x01\x0b\x01\x03\x01\x01\x0c\x01\x02\x03\x02\x04;\
        operation 3 is complete:\x03\x03\x03\x04\x03\x05\x03\x06\x03\x07\x03\x08;\
        operation 2's check fails:\x02\x05\x02\x06\x02\x07;";
    story(
        out,
        Mode::Optimistic,
        b"Out of order, one key, the other interleaving",
        after_the_read,
        1,
        3,
    )
}

pub fn out_of_order_two_groups(out: &mut impl Write) -> io::Result<()> {
    // Operations 3 and 4 have timestamps 3 and 4, and change keys of two groups; 4 completes first.
    // Operation 3 completes too: no completed instant of its group is above its base 1. Document 01's P10 is the same.
    let script = b"\
        before any step:;\
        operation 1 is complete:\x01\x01\x01\x0a\x01\x01\x03\x01\x04\x01\x05\x01\x06\x01\x07\x01\x08;\
        operation 2 is complete:\x02\x01\x02\x14\x02\x02\x03\x02\x04\x02\x05\x02\x06\x02\x07\x02\x08;\
        3 and 4 have timestamps:\x03\x01\x01\x0b\x01\x04\x01\x02\x15\x02;\
        operation 4 is complete:\x04\x03\x04\x04\x04\x05\x04\x06\x04\x07\x04\x08;\
        operation 3 is complete:\x03\x03\x03\x04\x03\x05\x03\x06\x03\x07\x03\x08;";
    story(
        out,
        Mode::Optimistic,
        b"Out of order, two keys in two file groups",
        script,
        1,
        4,
    )
}

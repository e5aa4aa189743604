// Document 02's rules on the index entry of an operation that ends without commit.
use model::Mode;
use scripts::story;
use std::io;
use std::io::Write;

pub fn taken_out(out: &mut impl Write) -> io::Result<()> {
    // The put of key 1 in group 0 has made the key's entry, and fails its check: the next put has the key in its own group.
    let script = b"\
        both have read:\x00\x01\x01\x0a\x00\x00\x03\x00\x04\x01\x01\x02\x14\x00\x01\x03\x01\x04;\
        writer 1 commits:\x01\x05\x01\x06\x01\x07\x01\x08;\
        writer 0's check fails:\x00\x05\x00\x06\x00\x07;\
        key 1 is put in group 1:\x02\x01\x01\x0b\x01\x02\x03\x02\x04\x02\x05\x02\x06\x02\x07\x02\x08;";
    story(
        out,
        Mode::Optimistic,
        b"A failed check gives the key back",
        script,
        1,
        3,
    )
}

pub fn left(out: &mut impl Write) -> io::Result<()> {
    // Key 1 is committed in group 0; puts of it that give up or fail their check have not made its entry.
    let script = b"\
        key 1 is put in group 0:\x00\x01\x01\x0a\x00\x00\x03\x00\x04\x00\x05\x00\x06\x00\x07\x00\x08;\
        writer 1 gives up at phase 5:\x01\x01\x01\x0b\x01\x01\x03\x01\x04\x01\x05\x01\x06\x01\x09;\
        at phase 6:\x01\x01\x01\x0b\x01\x01\x03\x01\x04\x01\x05\x01\x06\x01\x07\x01\x09;\
        its check fails:\x01\x01\x01\x0b\x01\x01\x03\x01\x04\
        \x00\x01\x02\x14\x00\x00\x03\x00\x04\x00\x05\x00\x06\x00\x07\x00\x08\x01\x05\x01\x06\x01\x07;\
        key 1 is still in group 0:\x02\x01\x01\x0c\x02\x02\x03\x02\x04\x02\x05\x02\x06\x02\x07\x02\x08;";
    story(
        out,
        Mode::Optimistic,
        b"An entry that was there before",
        script,
        5,
        6,
    )
}

pub fn looked_up(out: &mut impl Write) -> io::Result<()> {
    // A remove looks up an entry that is then taken out: it waits for the lock as any other, ends at its index step, and the lock is free.
    let remove = b"\
        writer 0 has entered key 1:\x00\x01\x01\x0a\x00\x00\x03\x00\x04\x00\x05\x00\x06;\
        two wait for the lock:\x01\x02\x01\x01\x03\x01\x04\x01\x05\x01\x06\x02\x01\x02\x14\x00\x02\x03\x02\x04\x02\x05\x02\x06;\
        writer 0 gives up:\x00\x09;\
        writer 2 takes the lock:\x02\x06;\
        the remove waits:\x01\x06;\
        writer 2 commits:\x02\x07\x02\x08;\
        the remove ends:\x01\x06;\
        key 1 is put in group 5:\x03\x01\x01\x0b\x05\x03\x03\x03\x04\x03\x05\x03\x06\x03\x07\x03\x08;\
        writer 1 is ready:\x01\x02\x01;";
    story(
        out,
        Mode::Optimistic,
        b"A remove whose key is no longer indexed",
        remove,
        1,
        4,
    )?;
    // A put that looks it up stays in the group that it found.
    let put = b"\
        writer 0 has entered key 1:\x00\x01\x01\x0a\x00\x00\x03\x00\x04\x00\x05\x00\x06;\
        writer 1 looks key 1 up:\x01\x01\x01\x0b\x01\x01\x03;\
        writer 0 gives up:\x00\x09;\
        writer 1 commits:\x01\x04\x01\x05\x01\x06\x01\x07\x01\x08;";
    story(
        out,
        Mode::Optimistic,
        b"A put keeps the group that it found",
        put,
        1,
        2,
    )
}

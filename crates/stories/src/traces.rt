// Document 01's traces, its rules on refusals, ends, removes and stops, and document 02's on the erased word, each once through.
use model::Mode;
use scripts::story;
use std::io;
use std::io::Write;

pub fn conflicts(out: &mut impl Write) -> io::Result<()> {
    // Two keys, one proposed group, both read; writer 0 commits.
    let p5 = b"\
        both have read:\x00\x01\x00\x0a\x00\x00\x03\x00\x04\x01\x01\x01\x0b\x00\x01\x03\x01\x04;\
        writer 0 commits:\x00\x05\x00\x06\x00\x07\x00\x08;\
        writer 1's check:\x01\x05\x01\x06\x01\x07;\
        writer 2 finds the lock free:\x02\x01\x02\x14\x01\x02\x03\x02\x04\x02\x05\x02\x06\x02\x07\x02\x08;";
    story(out, Mode::Optimistic, b"P5", p5, 1, 3)?;
    // One key, two proposed groups, both look up first; writer 0 commits.
    let p6 = b"\
        both have looked up:\x00\x01\x01\x0a\x00\x01\x01\x01\x0b\x01\x00\x03\x01\x03;\
        writer 0 commits:\x00\x04\x00\x05\x00\x06\x00\x07\x00\x08;\
        writer 1's index step:\x01\x04\x01\x05\x01\x06;\
        writer 2 finds the lock free:\x02\x01\x02\x14\x01\x02\x03\x02\x04\x02\x05\x02\x06\x02\x07\x02\x08;";
    story(out, Mode::Optimistic, b"P6", p6, 1, 3)?;
    // One key, one proposed group; timestamps 1 and 3 commit, then 2 reads. Its instant stays requested.
    let p7 = b"\
        three have started:\x00\x01\x01\x0a\x03\x01\x01\x01\x0b\x03\x02\x01\x01\x0c\x03;\
        timestamp 1 commits:\x00\x03\x00\x04\x00\x05\x00\x06\x00\x07\x00\x08;\
        timestamp 3 commits:\x02\x03\x02\x04\x02\x05\x02\x06\x02\x07\x02\x08;\
        timestamp 2 reads:\x01\x03\x01\x04;";
    story(out, Mode::Optimistic, b"P7", p7, 1, 3)
}

pub fn refusals(out: &mut impl Write) -> io::Result<()> {
    // A remove of a key that is not indexed: its instant stays requested.
    let p8 = b"\
        remove:\x00\x02\x05\x00\x03;";
    story(out, Mode::Optimistic, b"P8", p8, 1, 1)?;
    // Starts by a writer that does not exist, the second with a key that does not exist either. Then starts with the writer 256, the key 256,
    // the key 65,536 and the group 256, and with 4,294,967,296 as the writer, as a put's key, as a remove's and as the group. Then an operation by
    // the last writer.
    let p9 = b"\
        writer 16:\x10\x01\x01\x0a\x01\x10\x01\x20\x0a\x01;\
        numbers whose lowest byte is in range:\x80\x02\x01\x01\x0a\x01\x00\x01\x80\x02\x0a\x01\x00\x02\x80\x80\x04\x00\x01\x01\x0a\x80\x02\
        \x80\x80\x80\x80\x10\x01\x01\x0a\x01\x00\x01\x80\x80\x80\x80\x10\x0a\x01\x00\x02\x80\x80\x80\x80\x10\x00\x01\x01\x0a\x80\x80\x80\x80\x10;\
        writer 15 commits:\x0f\x01\x01\x0a\x01\x0f\x03\x0f\x04\x0f\x05\x0f\x06\x0f\x07\x0f\x08;";
    story(out, Mode::Optimistic, b"P9", p9, 0, 1)?;
    // Each step has two grounds or more, and gets the answer that comes first; then one ground less. Writer 1 holds the lock.
    let in_order = b"\
        two have begun:\x00\x01\x01\x0a\x01\x00\x03\x00\x04\x00\x05\x01\x01\x02\x14\x02\x01\x03\x01\x04\x01\x05\x01\x06;\
        10, then 12 and 13:\x11\x01\x28\x01\x09\x00\x01\x28\x01\x09\x00\x01\x01\x01\x09\x00\x02\x20;\
        14, not 16:\x00\x01\x01\x01\x01\x00\x07\x00\x08\x01\x06\x02\x06;\
        16:\x00\x06;\
        writer 1 gives up, writer 0 commits:\x01\x09\x00\x06\x00\x07\x00\x08;";
    story(
        out,
        Mode::Optimistic,
        b"The order of the refusals",
        in_order,
        1,
        2,
    )
}

pub fn erased_word(out: &mut impl Write) -> io::Result<()> {
    // A put of 18,446,744,073,709,551,615 is refused at its start, whatever its writer has in progress, and changes nothing; the value below it is
    // put, and so is 4,294,967,295, the largest of 32 bits.
    let script = b"\
        by a ready writer:\x00\x01\x01\xff\xff\xff\xff\xff\xff\xff\xff\xff\x01\x01\x00\x03;\
        13, 12 and 10 before 18:\x00\x01\x01\xff\xff\xff\xff\xff\xff\xff\xff\xff\x01\x08\
        \x00\x01\x20\xff\xff\xff\xff\xff\xff\xff\xff\xff\x01\x01\
        \x10\x01\x01\xff\xff\xff\xff\xff\xff\xff\xff\xff\x01\x01;\
        the value below it:\x00\x01\x01\xfe\xff\xff\xff\xff\xff\xff\xff\xff\x01\x01\x00\x03\x00\x04\x00\x05\x00\x06\x00\x07\x00\x08;\
        the largest of 32 bits:\x00\x01\x03\xff\xff\xff\xff\x0f\x02\x00\x03\x00\x04\x00\x05\x00\x06\x00\x07\x00\x08;\
        at each phase:\x01\x01\x02\x14\x01\x01\x01\x01\xff\xff\xff\xff\xff\xff\xff\xff\xff\x01\x01\
        \x01\x03\x01\x01\x01\xff\xff\xff\xff\xff\xff\xff\xff\xff\x01\x01\
        \x01\x04\x01\x01\x01\xff\xff\xff\xff\xff\xff\xff\xff\xff\x01\x01\
        \x01\x05\x01\x01\x01\xff\xff\xff\xff\xff\xff\xff\xff\xff\x01\x01\
        \x01\x06\x01\x01\x01\xff\xff\xff\xff\xff\xff\xff\xff\xff\x01\x01\
        \x01\x07\x01\x01\x01\xff\xff\xff\xff\xff\xff\xff\xff\xff\x01\x01\
        \x01\x08\x01\x01\x01\xff\xff\xff\xff\xff\xff\xff\xff\xff\x01\x01;";
    story(out, Mode::Optimistic, b"The erased word", script, 1, 3)
}

pub fn ends(out: &mut impl Write) -> io::Result<()> {
    // A writer gives up at each phase from 1 on, and at phase 0 it cannot. Its index entry is taken out, and the lock is free again.
    let giving_up = b"\
        at phase 0:\x00\x09;\
        at phases 1 to 4:\x00\x01\x01\x0a\x01\x00\x09\x00\x01\x01\x0a\x01\x00\x03\x00\x09\
        \x00\x01\x01\x0a\x01\x00\x03\x00\x04\x00\x09\x00\x01\x01\x0a\x01\x00\x03\x00\x04\x00\x05\x00\x09;\
        at phases 5 and 6:\x00\x01\x01\x0a\x01\x00\x03\x00\x04\x00\x05\x00\x06\x00\x09\
        \x00\x01\x01\x0a\x01\x00\x03\x00\x04\x00\x05\x00\x06\x00\x07\x00\x09;\
        key 1 is in no group:\x01\x01\x01\x0b\x02\x01\x03\x01\x04\x01\x05\x01\x06\x01\x07\x01\x08;";
    story(out, Mode::Optimistic, b"Giving up", giving_up, 1, 7)?;
    // A key is put, removed, and put again with another proposed group: it keeps its own. Its neighbour stays.
    let removes = b"\
        keys 1 and 2 are put:\x00\x01\x01\x0a\x03\x00\x03\x00\x04\x00\x05\x00\x06\x00\x07\x00\x08\
        \x00\x01\x02\x14\x03\x00\x03\x00\x04\x00\x05\x00\x06\x00\x07\x00\x08;\
        key 1 is removed:\x01\x02\x01\x01\x03\x01\x04\x01\x05\x01\x06\x01\x07\x01\x08;\
        key 1 is put again:\x02\x01\x01\x0b\x05\x02\x03\x02\x04\x02\x05\x02\x06\x02\x07\x02\x08;";
    story(
        out,
        Mode::Optimistic,
        b"A remove, and a put after it",
        removes,
        1,
        4,
    )
}

pub fn starts(out: &mut impl Write) -> io::Result<()> {
    // A writer starts and gives up, again and again: the 128th start is taken, the 129th is refused, but on other grounds first.
    let script = b"\
        127 starts:\
        \0\x02\0\0\t\0\x02\0\0\t\0\x02\0\0\t\0\x02\0\0\t\0\x02\0\0\t\0\x02\0\0\t\0\x02\0\0\t\0\x02\0\0\t\0\x02\0\0\t\0\x02\0\0\t\
        \0\x02\0\0\t\0\x02\0\0\t\0\x02\0\0\t\0\x02\0\0\t\0\x02\0\0\t\0\x02\0\0\t\0\x02\0\0\t\0\x02\0\0\t\0\x02\0\0\t\0\x02\0\0\t\
        \0\x02\0\0\t\0\x02\0\0\t\0\x02\0\0\t\0\x02\0\0\t\0\x02\0\0\t\0\x02\0\0\t\0\x02\0\0\t\0\x02\0\0\t\0\x02\0\0\t\0\x02\0\0\t\
        \0\x02\0\0\t\0\x02\0\0\t\0\x02\0\0\t\0\x02\0\0\t\0\x02\0\0\t\0\x02\0\0\t\0\x02\0\0\t\0\x02\0\0\t\0\x02\0\0\t\0\x02\0\0\t\
        \0\x02\0\0\t\0\x02\0\0\t\0\x02\0\0\t\0\x02\0\0\t\0\x02\0\0\t\0\x02\0\0\t\0\x02\0\0\t\0\x02\0\0\t\0\x02\0\0\t\0\x02\0\0\t\
        \0\x02\0\0\t\0\x02\0\0\t\0\x02\0\0\t\0\x02\0\0\t\0\x02\0\0\t\0\x02\0\0\t\0\x02\0\0\t\0\x02\0\0\t\0\x02\0\0\t\0\x02\0\0\t\
        \0\x02\0\0\t\0\x02\0\0\t\0\x02\0\0\t\0\x02\0\0\t\0\x02\0\0\t\0\x02\0\0\t\0\x02\0\0\t\0\x02\0\0\t\0\x02\0\0\t\0\x02\0\0\t\
        \0\x02\0\0\t\0\x02\0\0\t\0\x02\0\0\t\0\x02\0\0\t\0\x02\0\0\t\0\x02\0\0\t\0\x02\0\0\t\0\x02\0\0\t\0\x02\0\0\t\0\x02\0\0\t\
        \0\x02\0\0\t\0\x02\0\0\t\0\x02\0\0\t\0\x02\0\0\t\0\x02\0\0\t\0\x02\0\0\t\0\x02\0\0\t\0\x02\0\0\t\0\x02\0\0\t\0\x02\0\0\t\
        \0\x02\0\0\t\0\x02\0\0\t\0\x02\0\0\t\0\x02\0\0\t\0\x02\0\0\t\0\x02\0\0\t\0\x02\0\0\t\0\x02\0\0\t\0\x02\0\0\t\0\x02\0\0\t\
        \0\x02\0\0\t\0\x02\0\0\t\0\x02\0\0\t\0\x02\0\0\t\0\x02\0\0\t\0\x02\0\0\t\0\x02\0\0\t\0\x02\0\0\t\0\x02\0\0\t\0\x02\0\0\t\
        \0\x02\0\0\t\0\x02\0\0\t\0\x02\0\0\t\0\x02\0\0\t\0\x02\0\0\t\0\x02\0\0\t\0\x02\0\0\t\0\x02\0\0\t\0\x02\0\0\t\0\x02\0\0\t\
        \0\x02\0\0\t\0\x02\0\0\t\0\x02\0\0\t\0\x02\0\0\t\0\x02\0\0\t\0\x02\0\0\t\0\x02\0\0\t;\
        the 128th:\0\x01\0\0\0;\
        another:\x01\x01\x00\x00\x00\x01\x01\x20\x00\x00\x01\x01\x00\x00\x08\x01\x02\x00\x00\x01\x00\x00\x00\x01\x09;\
        its end, the 129th:\x00\x09\x00\x01\x00\x00\x00;";
    story(
        out,
        Mode::Optimistic,
        b"The largest number of starts",
        script,
        127,
        129,
    )
}

pub fn stops(out: &mut impl Write) -> io::Result<()> {
    // Every stop of a run but 24; a record is taken before each refused one.
    let script = b"\
        empty log:;\
        document 01's log:\x00\x01\x01\xac\x02\x02\x00\x03\x00\x04\x00\x05\x00\x06\x00\x07\x00\x08;\
        record cut short:\x01\x01\x01\x0a\x01\x01;\
        number longer than needed:\x02\x01\x01\x0a\x01\x02\x83\x00;\
        number too large:\x03\x01\x01\x0a\x01\xff\xff\xff\xff\xff\xff\xff\xff\xff\x02;\
        no such kind:\x04\x01\x01\x0a\x01\x04\x0a;";
    story(out, Mode::Optimistic, b"Stops of a run", script, 1, 1)
}

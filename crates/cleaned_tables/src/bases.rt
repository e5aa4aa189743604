// Which bases a writer at phase 3 needs.
use model::Mode;
use model::instants::{COMPLETED, INFLIGHT, REQUESTED};
use model::limits::WRITERS;
use set_by_hand::{bare, clean_rows, clean_story, putting, removing};
use std::io;
use std::io::Write;

// Timestamps 1 and 3 are completed in file group 1, and 2 and 4 in group 0. Writer 0, in group 0, has base 1, whose own group is 1.
pub fn of_another_group(out: &mut impl Write) -> io::Result<()> {
    let script = b"writer 0 ends:\x00\x05\x00\x06\x00\x07;";
    let mut t = bare(Mode::Optimistic, 5);
    t.timeline[0] = COMPLETED + 1;
    t.timeline[1] = COMPLETED;
    t.timeline[2] = COMPLETED + 1;
    t.timeline[3] = COMPLETED;
    t.timeline[4] = INFLIGHT;
    t.writers[0] = putting(3, 5, 50, 0, 5, 1);
    clean_story(
        out,
        b"A base of another file group",
        t,
        b"\x01\x01\x01\x0a\x00\x02\x02\x14\x01\x03\x01\x0b\x00\x04\x02\x15",
        b"\x02\x03\x04\x05\x02",
        script,
        2,
        5,
    )
}

// In file group 3 the timestamps 1, 2 and 6 are completed and 3 is inflight; 4 is requested, and 5 has no instant. All but 1 have a slice there.
// Writer 2 has one of them as its base, or another.
fn at_base(out: &mut impl Write, base: u8) -> io::Result<()> {
    let mut t = bare(Mode::Optimistic, 7);
    t.timeline[0] = COMPLETED + 3;
    t.timeline[1] = COMPLETED + 3;
    t.timeline[2] = INFLIGHT + 3;
    t.timeline[3] = REQUESTED;
    t.timeline[5] = COMPLETED + 3;
    t.writers[2] = removing(3, 1, 3, 7, base);
    report::title(out, b"The base of writer 2")?;
    report::answers(out, b"base", &[base], 1)?;
    clean_rows(
        out,
        t,
        b"\x03\x02\x01\x0b\x03\x03\x01\x0c\x03\x04\x01\x0d\x03\x05\x01\x0e\x03\x06\x01\x0f",
        b"\x01\x02\x05\x06\x07",
    )
}

// A base is kept if it is the newest of its group at or below the clean, or newer, or not completed.
pub fn at_each_base(out: &mut impl Write) -> io::Result<()> {
    for base in 0..8 {
        at_base(out, base)?;
    }
    Ok(())
}

// Cleans a table with one writer at a phase, whose base 1 would be dropped at 2.
fn at_phase(out: &mut impl Write, mode: Mode, number: usize, phase: u8) -> io::Result<()> {
    let mut t = bare(mode, 3);
    t.timeline[0] = COMPLETED + 3;
    t.timeline[1] = COMPLETED + 3;
    if number < WRITERS {
        t.writers[number] = putting(phase, 2, 20, 3, 3, 1);
    }
    report::answers(out, b"phase", &[phase], 1)?;
    clean_rows(out, t, b"\x03\x01\x01\x0a\x03\x02\x01\x0b", b"\x01\x02")
}

// Only at phase 3 the writer needs its base.
fn at_each_phase(out: &mut impl Write, mode: Mode, number: usize) -> io::Result<()> {
    for phase in 0..7 {
        at_phase(out, mode, number, phase)?;
    }
    Ok(())
}

// The first writer and the last, in either mode.
pub fn of_each_writer(out: &mut impl Write) -> io::Result<()> {
    report::title(out, b"The base of writer 0")?;
    at_each_phase(out, Mode::Optimistic, 0)?;
    report::title(out, b"The base of writer 15")?;
    at_each_phase(out, Mode::Optimistic, 15)?;
    report::title(out, b"The base of writer 0, pessimistic")?;
    at_each_phase(out, Mode::Pessimistic, 0)?;
    report::title(out, b"The base of writer 15, pessimistic")?;
    at_each_phase(out, Mode::Pessimistic, 15)
}

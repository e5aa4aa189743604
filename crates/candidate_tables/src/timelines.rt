// The first timestamp and the last, all of them, and writers at each phase.
use crate::looking::looking;
use model::instants::COMPLETED;
use model::limits::TIMESTAMPS;
use model::{Mode, Table};
use scripts::choose;
use set_by_hand::{bare, putting};
use std::io;
use std::io::Write;

// Timestamps 1 and 128 are completed; writer 3 has 127. The last place of its row is `noted`.
fn both_ends(first: u8, last: u8, noted: u8) -> Table {
    let mut t = bare(Mode::Optimistic, 128);
    t.timeline[0] = COMPLETED;
    t.timeline[127] = COMPLETED + 7;
    t.writers[3] = putting(3, 9, 90, 7, 127, 0);
    t.places[0] = first;
    t.places[127] = last;
    t.noted[63] = noted;
    t
}

// All timestamps are completed; writer 3 has the first.
fn all_completed() -> Table {
    let completed = [COMPLETED; TIMESTAMPS];
    let mut t = bare(Mode::Optimistic, 128);
    t.timeline = completed;
    t.writers[3] = putting(6, 9, 90, 7, 1, 0);
    t
}

// All lists that are as long as can be.
fn all(out: &mut impl Write) -> io::Result<()> {
    let firsts = [1u8; TIMESTAMPS];
    let mut t = all_completed();
    choose(out, t, b"all but its own: ", 3)?;
    t.noted[48] = 1;
    t.places = firsts;
    choose(out, t, b"all: ", 3)?;
    t.counts[3] = 1;
    choose(out, t, b"all, and none: ", 3)
}

pub fn ends_of_the_timeline(out: &mut impl Write) -> io::Result<()> {
    report::title(out, b"The ends of the timeline")?;
    choose(out, both_ends(128, 1, 0), b"not noted: ", 3)?;
    choose(out, both_ends(0, 0, 1), b"noted: ", 3)?;
    choose(out, both_ends(1, 0, 128), b"noted above its own: ", 3)?;
    all(out)
}

// A writer with a timestamp, at a phase, and the first writer that there is not.
fn at_phase(out: &mut impl Write, phase: u8) -> io::Result<()> {
    let mut t = looking(Mode::Optimistic, phase, 5, 9);
    t.places[0] = 1;
    t.noted[48] = 2;
    write!(out, "phase {phase}")?;
    choose(out, t, b": ", 3)?;
    choose(out, t, b"past the last writer: ", 16)
}

pub fn at_each_phase(out: &mut impl Write) -> io::Result<()> {
    report::title(out, b"At each phase")?;
    at_phase(out, 0)?;
    at_phase(out, 1)?;
    at_phase(out, 2)?;
    at_phase(out, 3)?;
    at_phase(out, 4)?;
    at_phase(out, 5)?;
    at_phase(out, 6)
}

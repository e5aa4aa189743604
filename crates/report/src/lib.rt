// Printing what the calls of a table gave, for the programs that test them. Titles and labels are any bytes: a script's labels are a part of it.
#![tactic(auto)]

mod choices;
mod forms;

pub use choices::{chosen, noted};
use common::Word;
pub use forms::{Form, SIGNS, WORDS};
use model::answers::{Refusal, TAKEN};
use model::{Found, InstantState, Value};
use std::io;
use std::io::Write;

// A title on a line of its own.
pub fn title(out: &mut impl Write, title: &[u8]) -> io::Result<()> {
    out.write_all(b"== ")?;
    out.write_all(title)?;
    writeln!(out)
}

// The first bytes of a buffer, by their count: a run gives that, and a caller would have to show that a slice of it is there.
fn bytes(out: &mut impl Write, buffer: &[u8], count: usize) -> io::Result<()> {
    for byte in buffer.iter().take(count) {
        write!(out, " {byte}")?;
    }
    Ok(())
}

// The first answers of a buffer, behind a label.
pub fn answers(out: &mut impl Write, label: &[u8], buffer: &[u8], count: usize) -> io::Result<()> {
    out.write_all(label)?;
    bytes(out, buffer, count)?;
    writeln!(out)
}

// A run's stop.
pub fn stop(out: &mut impl Write, stop: u8, offset: usize) -> io::Result<()> {
    writeln!(out, "stop {stop} at {offset}")
}

// The answers and the stop of a run, within a line.
pub fn ran(
    out: &mut impl Write,
    buffer: &[u8],
    count: usize,
    stop: u8,
    offset: usize,
) -> io::Result<()> {
    write!(out, "ran:")?;
    bytes(out, buffer, count)?;
    write!(out, "; stop {stop} at {offset}")
}

// The numbers of a row.
fn row(out: &mut impl Write, numbers: &[Value]) -> io::Result<()> {
    for number in numbers {
        write!(out, " {number}")?;
    }
    Ok(())
}

// The first rows of a buffer, a comma before each but the first.
pub fn rows(out: &mut impl Write, buffer: &[Value], count: usize) -> io::Result<()> {
    for (i, numbers) in buffer.chunks(3).take(count).enumerate() {
        if 0 < i {
            write!(out, ",")?;
        }
        row(out, numbers)?;
    }
    Ok(())
}

// What a scan at a timestamp gave.
pub fn listing(
    out: &mut impl Write,
    at: u64,
    found: Result<usize, Refusal>,
    buffer: &[Value],
) -> io::Result<()> {
    write!(out, "at {at}:")?;
    WORDS.listing(out, found, buffer)?;
    writeln!(out)
}

// What a clean at a timestamp gave.
pub fn cleaned(out: &mut impl Write, at: u64, answer: u8) -> io::Result<()> {
    writeln!(out, "clean at {at}: {answer}")
}

// What a scan into a buffer gave, and the whole buffer.
pub fn scanned(
    out: &mut impl Write,
    found: Result<usize, Refusal>,
    buffer: &[Value],
) -> io::Result<()> {
    let (answer, count) = match found {
        Err(refusal) => (u8::from(refusal), 0),
        Ok(count) => (TAKEN, count),
    };
    let room = buffer.len();
    write!(out, "room for {room}: answer {answer}, {count} rows:")?;
    rows(out, buffer, room)?;
    writeln!(out)
}

// What a writer of bytes gave, and its whole buffer.
pub fn written(
    out: &mut impl Write,
    label: &[u8],
    answer: u8,
    count: usize,
    buffer: &[u8],
) -> io::Result<()> {
    out.write_all(label)?;
    write!(out, ": answer {answer}, {count} bytes:")?;
    for byte in buffer {
        write!(out, " {byte:02x}")?;
    }
    writeln!(out)
}

// What a point read of a key at a timestamp gave.
pub fn found(
    out: &mut impl Write,
    key: Word,
    at: u64,
    found: Result<Option<Found>, Refusal>,
) -> io::Result<()> {
    write!(out, "key {key} at {at}:")?;
    WORDS.found(out, found)?;
    writeln!(out)
}

// The state of the instant of a timestamp.
pub fn instant(
    out: &mut impl Write,
    at: u64,
    state: Result<InstantState, Refusal>,
) -> io::Result<()> {
    write!(out, "instant {at}:")?;
    WORDS.instant(out, state)?;
    writeln!(out)
}

// Printing what a call gave.
use model::{Action, Operation};
use std::io;
use std::io::Write;
use steplog::{Record, Stop};

// A title on a line of its own.
pub fn title(out: &mut impl Write, title: &str) -> io::Result<()> {
    writeln!(out, "== {title}")
}

// What a writer starts, within a line.
fn operation(out: &mut impl Write, started: Operation) -> io::Result<()> {
    match started {
        Operation::Put { key, value, group } => write!(out, " put {key} {value} {group}"),
        Operation::Remove { key } => write!(out, " remove {key}"),
    }
}

// What a writer does, within a line.
fn action(out: &mut impl Write, done: Action) -> io::Result<()> {
    match done {
        Action::Start(started) => operation(out, started),
        Action::LookUp => write!(out, " look up"),
        Action::Read => write!(out, " read"),
        Action::Write => write!(out, " write"),
        Action::Index => write!(out, " index"),
        Action::Check => write!(out, " check"),
        Action::Commit => write!(out, " commit"),
        Action::Abort => write!(out, " give up"),
    }
}

// A step and the place behind its record, or the stop.
pub fn record(out: &mut impl Write, found: Result<Record, Stop>) -> io::Result<()> {
    match found {
        Ok(Record { step, next }) => {
            write!(out, "writer {}", step.writer)?;
            action(out, step.action)?;
            writeln!(out, ", next at {next}")
        }
        Err(stop) => writeln!(out, "stop {}", u8::from(stop)),
    }
}

// Where the reader stands.
pub fn place(out: &mut impl Write, at: usize) -> io::Result<()> {
    writeln!(out, "reader at {at}")
}

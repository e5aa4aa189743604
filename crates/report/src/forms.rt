// The two forms in which is told what a read gave: in words, where a line tells one read, and in signs, where it tells many.
use crate::rows;
use model::answers::Refusal;
use model::{Found, InstantState, Value};
use std::io;
use std::io::Write;

// What stands for each case, before the numbers of it.
#[derive(Clone, Copy)]
pub struct Form {
    refused: &'static str,
    no_rows: &'static str,
    absent: &'static str,
    in_group: &'static str,
    no_instant: &'static str,
    requested: &'static str,
    inflight: &'static str,
    completed: &'static str,
}

pub const WORDS: Form = Form {
    refused: " refused with ",
    no_rows: " no rows",
    absent: " absent",
    in_group: " in group ",
    no_instant: " none",
    requested: " requested",
    inflight: " inflight in group ",
    completed: " completed in group ",
};

pub const SIGNS: Form = Form {
    refused: " !",
    no_rows: "",
    absent: " .",
    in_group: "/",
    no_instant: " -",
    requested: " r",
    inflight: " i",
    completed: " c",
};

impl Form {
    // A refusal, by its number.
    fn refusal(self, out: &mut impl Write, refusal: Refusal) -> io::Result<()> {
        write!(out, "{}{}", self.refused, u8::from(refusal))
    }

    // What a scan gave.
    pub fn listing(
        self,
        out: &mut impl Write,
        found: Result<usize, Refusal>,
        buffer: &[Value],
    ) -> io::Result<()> {
        match found {
            Err(refusal) => self.refusal(out, refusal),
            Ok(0) => write!(out, "{}", self.no_rows),
            Ok(count) => rows(out, buffer, count),
        }
    }

    // What a point read gave.
    pub fn found(
        self,
        out: &mut impl Write,
        found: Result<Option<Found>, Refusal>,
    ) -> io::Result<()> {
        match found {
            Err(refusal) => self.refusal(out, refusal),
            Ok(None) => write!(out, "{}", self.absent),
            Ok(Some(Found { value, group })) => write!(out, " {value}{}{group}", self.in_group),
        }
    }

    // The state of an instant.
    pub fn instant(
        self,
        out: &mut impl Write,
        state: Result<InstantState, Refusal>,
    ) -> io::Result<()> {
        match state {
            Err(refusal) => self.refusal(out, refusal),
            Ok(InstantState::None) => write!(out, "{}", self.no_instant),
            Ok(InstantState::Requested) => write!(out, "{}", self.requested),
            Ok(InstantState::Inflight(group)) => write!(out, "{}{group}", self.inflight),
            Ok(InstantState::Completed(group)) => write!(out, "{}{group}", self.completed),
        }
    }
}

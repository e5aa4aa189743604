// A script is pieces in a row, each a label, a colon, a log and a semicolon; its logs have neither mark.
ghost use Rattle.std.specs.Prelude.{◌≡◌, ◌+◌, length, IfOk};
ghost use Rattle.std.specs.Iterator.{at_most};
ghost use Rattle.model.specs.Calls.{state_before};
ghost use Rattle.run.specs.Runs.{of_log, run_of};
ghost use Rattle.run.specs.Calls.{ran};
ghost use Rattle.run.specs.declared.Ran.{Ran};

use crate::calls::{instant, scan};
use crate::steps::run_by_steps;
use model::limits::{ROWS, TIMESTAMPS};
use model::{Mode, Table, Value};
use run::Ran;
use std::io;
use std::io::Write;

// Places for the answers of a piece: a start and its end for each timestamp.
const PLACES: usize = 2 * TIMESTAMPS;

// Runs a log, whole or step by step: by a flag, since of a closure the contract would have to ask what it says here of both.
fn run_log(
    t: Table,
    present: &mut [bool; ROWS],
    values: &mut [Value; ROWS],
    log: &[u8],
    answers: &mut [u8],
    by_steps: bool,
) -> Ran
    ensures { ran result present values answers ≡ run_of (of_log log.now) (state_before t present values) answers.old }
{
    if by_steps {
        return run_by_steps(t, present, values, log, answers);
    }
    run::run_log(t, present, values, log, answers)
}

// The same, and prints the answers and the stop. The run is done also where they could not be printed.
pub fn run_printed(
    out: &mut impl Write,
    t: Table,
    present: &mut [bool; ROWS],
    values: &mut [Value; ROWS],
    label: &[u8],
    log: &[u8],
    answers: &mut [u8],
    by_steps: bool,
) -> io::Result<Ran>
    ensures ok { IfOk result (λ r. ran r present values answers ≡ run_of (of_log log.now) (state_before t present values) answers.old) }
    ensures done { (r : Ran) × (ran r present values answers ≡ run_of (of_log log.now) (state_before t present values) answers.old) }
{
    let ran = run_log(t, present, values, log, answers, by_steps);
    report::answers(out, label, answers, ran.count)?;
    report::stop(out, u8::from(ran.stop), ran.offset)?;
    Ok(ran)
}

// Runs a piece of a script, and reads the table after it at the timestamps `first` to `last`.
pub fn piece(
    out: &mut impl Write,
    t: Table,
    present: &mut [bool; ROWS],
    values: &mut [Value; ROWS],
    label: &[u8],
    log: &[u8],
    first: u64,
    last: u64,
    by_steps: bool,
) -> io::Result<Table> {
    let mut places = [0u8; PLACES];
    let ran = run_printed(out, t, present, values, label, log, &mut places, by_steps)?;
    let after = ran.table;
    shown(out, after, present, values, first, last)?;
    Ok(after)
}

// The rows and the instants at the timestamps `first` to `last`.
fn shown(
    out: &mut impl Write,
    t: Table,
    present: &[bool; ROWS],
    values: &[Value; ROWS],
    first: u64,
    last: u64,
) -> io::Result<()> {
    for at in first..=last {
        scan(out, t, present, values, at)?;
        instant(out, t, at)?;
    }
    Ok(())
}

// What stands up to a mark, with the mark, and what stands behind it. Without a mark all stands before it.
fn split_behind(text: &[u8], mark: u8) -> (&[u8], &[u8])
    ensures { length result.0.now + length result.1.now ≡ length text.now }
{
    match text.iter().position(|byte| *byte == mark) {
        Some(at) => text.split_at(at + 1),
        None => (text, &[]),
    }
}

// What is left of a script.
#[derive(Clone, Copy)]
struct Script<'a>(&'a [u8]);

impl<'a> Iterator for Script<'a> {
    type Item = (&'a [u8], &'a [u8]);

    ghost remaining = { λ s. at_most (length s.0.now) };

    // The next label and its log. A label without a log ends the script.
    fn next(&mut self) -> Option<(&'a [u8], &'a [u8])> {
        let (label, rest) = split_behind(self.0, b':');
        let (log, rest) = split_behind(rest, b';');
        let (_, log) = log.split_last()?;
        self.0 = rest;
        Some((label, log))
    }
}

// Runs each piece of a script on the table that the last one left, and reads the table after each.
fn pieces(
    out: &mut impl Write,
    mut t: Table,
    present: &mut [bool; ROWS],
    values: &mut [Value; ROWS],
    script: &[u8],
    first: u64,
    last: u64,
    by_steps: bool,
) -> io::Result<()> {
    for (label, log) in Script(script) {
        t = piece(out, t, present, values, label, log, first, last, by_steps)?;
    }
    Ok(())
}

// Runs a script on a table, once as logs and once step by step, and reads after each piece the rows and the instants
// at the timestamps `first` to `last`.
pub fn play(
    out: &mut impl Write,
    t: Table,
    present: &[bool; ROWS],
    values: &[Value; ROWS],
    script: &[u8],
    first: u64,
    last: u64,
) -> io::Result<()> {
    let mut shown = *present;
    let mut held = *values;
    pieces(out, t, &mut shown, &mut held, script, first, last, false)?;
    writeln!(out, "-- step by step")?;
    shown = *present;
    held = *values;
    pieces(out, t, &mut shown, &mut held, script, first, last, true)
}

// A script from a fresh table of a mode on.
pub fn story(
    out: &mut impl Write,
    mode: Mode,
    title: &[u8],
    script: &[u8],
    first: u64,
    last: u64,
) -> io::Result<()> {
    let mut present = [false; ROWS];
    let mut values: [Value; ROWS] = [0; ROWS];
    let t = table::fresh(mode, &mut present, &mut values);
    report::title(out, title)?;
    play(out, t, &present, &values, script, first, last)
}

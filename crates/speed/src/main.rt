// Runs the operations of a log one by one, with a scan after each, as many times over as the input says: to be timed against a program in ordinary
// Rust with the same input and output (tests/speed). Standard input, of which the first 4,096 bytes count, is the number of passes over the log,
// in LEB128, and the log. The last pass is printed.
#![tactic(auto)]

mod print;

ghost use Rattle.std.specs.Prelude.{◌<◌, length};

use common::Word;
use leb128::Decoded;
use model::limits::{KEYS, ROWS};
use model::{Mode, Value};
use std::io;
use std::io::{BufWriter, Write};

// Room for the input.
const MAX_INPUT: usize = 4096;

// The steps of an operation that is carried out whole.
const STEPS: usize = 7;

// Room for the rows of a scan, three numbers each.
const ROOM: usize = 3 * KEYS;

// The log behind a part of it that was run; nothing where the run took nothing.
fn behind(log: &[u8], size: usize) -> &[u8]
    requires { 0 < length log.now }
    ensures { length result.now < length log.now }
{
    if size == 0 {
        return &[];
    }
    log.get(size..).unwrap_or_default()
}

// Runs a log on a fresh optimistic table, STEPS records at a time, with a scan at the last timestamp issued after each.
fn pass(
    out: &mut impl Write,
    log: &[u8],
    present: &mut [bool; ROWS],
    values: &mut [Value; ROWS],
    printed: bool,
) -> io::Result<()> {
    let mut answers = [0u8; STEPS];
    let mut rows: [Word; ROOM] = [0; ROOM];
    let mut t = table::fresh(Mode::Optimistic, present, values);
    let mut rest = log;
    // No iterator: each run says how much of the log the next one has.
    while !rest.is_empty() {
        let ran = run::run_log(t, present, values, rest, &mut answers);
        t = ran.table;
        let scanned = snapshot::scan(t, present, values, t.last as u64, &mut rows);
        if printed {
            print::answers(out, &answers, ran.count)?;
            print::rows(out, &rows, scanned.unwrap_or(0))?;
        }
        rest = behind(rest, ran.offset);
    }
    Ok(())
}

// Passes over a log, of which the last is printed.
fn passes(out: &mut impl Write, times: Word, log: &[u8]) -> io::Result<()> {
    let mut present = [false; ROWS];
    let mut values: [Value; ROWS] = [0; ROWS];
    for _ in 1..times {
        pass(out, log, &mut present, &mut values, false)?;
    }
    pass(out, log, &mut present, &mut values, true)
}

// The number of passes, and the log behind it.
fn run_input(out: &mut impl Write, input: &[u8]) -> io::Result<()> {
    let Ok(Decoded { value, next }) = leb128::decode(input, 0) else {
        return Ok(());
    };
    let Some(log) = input.get(next..) else {
        return Ok(());
    };
    passes(out, value, log)
}

fn main(rt: HostRuntime) -> io::Result<()> {
    let mut buffer = [0u8; MAX_INPUT];
    let size = input::read_full(&mut rt.stdin(), &mut buffer)?;
    let mut out = BufWriter::new(rt.alloc(), io::writer(&rt))?;
    run_input(&mut out, &buffer[..size])?;
    out.flush()
}

// Logs that are read from an input, each four bytes of length, the lowest first, and its bytes: their transcripts, printed.
#![tactic(auto)]

ghost use Rattle.std.specs.Prelude.{length};
ghost use Rattle.std.specs.Iterator.{at_most};

use model::Mode;
use std::io;
use std::io::{Read, Write};
use transcript::MAX_TEXT;

// Room for the whole input.
const MAX_INPUT: usize = 262144;

// The logs at the start of an input, as far as they are whole.
#[derive(Drop)]
struct Logs<'a>(&'a [u8]);

impl<'a> Iterator for Logs<'a> {
    type Item = &'a [u8];

    ghost remaining = { λ logs. at_most (length logs.0.now) };

    fn next(&mut self) -> Option<&'a [u8]> {
        let (size, rest) = self.0.split_first_chunk()?;
        let (log, behind) = rest.split_at_checked(u32::from_le_bytes(*size) as usize)?;
        self.0 = behind;
        Some(log)
    }
}

// Prints a log's transcript under its number.
fn print_log(out: &mut impl Write, mode: Mode, number: usize, log: &[u8]) -> io::Result<()> {
    writeln!(out, "log {number}")?;
    let mut text = [0u8; MAX_TEXT];
    let size = transcript::transcribe(mode, log, &mut text).unwrap();
    out.write_all(&text[..size])
}

// Prints the transcript of each log that a reader gives, run on a fresh table of a mode.
pub fn print_transcripts(
    out: &mut impl Write,
    reader: &mut impl Read,
    mode: Mode,
) -> io::Result<()> {
    let mut input = [0u8; MAX_INPUT];
    let size = input::read_full(reader, &mut input)?;
    for (number, log) in Logs(&input[..size]).enumerate() {
        print_log(out, mode, number, log)?;
    }
    Ok(())
}

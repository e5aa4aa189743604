// Prints the transcript of the log on standard input.
#![tactic(auto)]

use model::Mode;
use std::io;
use std::io::Write;
use transcript::{MAX_LOG, MAX_TEXT};

// One byte more than the longest log, which tells a longer one.
const MAX_INPUT: usize = MAX_LOG + 1;

fn main(rt: HostRuntime) -> io::Result<()> {
    let mut input = [0u8; MAX_INPUT];
    let Ok(size) = input::read_full(&mut rt.stdin(), &mut input) else {
        return rt.stderr().write_all(b"read error\n");
    };
    let mut text = [0u8; MAX_TEXT];
    let length = transcript::transcribe(Mode::Optimistic, &input[..size], &mut text).unwrap();
    rt.stdout().write_all(&text[..length])
}

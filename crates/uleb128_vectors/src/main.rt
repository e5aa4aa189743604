// Holds leb128 to the GNU assembler's .uleb128: standard input has the bytes that `as` made of numbers.s.
// Prints each number with the bytes that leb128 makes of it, then the stop of the reading and its place, 0 and the input's size where all was read.
#![tactic(auto)]

use common::Word;
use std::io;
use std::io::{BufWriter, Write};

// Room for the whole input.
const MAX_INPUT: usize = 4096;

// A number, and the bytes that leb128 makes of it.
fn print_number(out: &mut impl Write, number: Word) -> io::Result<()> {
    let mut buffer = [0u8; 16];
    let size = leb128::encode(number, &mut buffer).unwrap();
    write!(out, "{number} ")?;
    for byte in &buffer[..size] {
        write!(out, "{byte:02x}")?;
    }
    writeln!(out)
}

// The numbers of some bytes, one behind the other, and the stop and its place. No iterator: the place where the reading stops is printed too.
fn print_numbers(out: &mut impl Write, bytes: &[u8]) -> io::Result<()> {
    let mut at = 0;
    while at < bytes.len() {
        match leb128::decode(bytes, at) {
            Ok(found) => {
                print_number(out, found.value)?;
                at = found.next;
            }
            Err(malformed) => return writeln!(out, "stop {} at {at}", u8::from(malformed)),
        }
    }
    writeln!(out, "stop 0 at {at}")
}

fn main(rt: HostRuntime) -> io::Result<()> {
    let mut buffer = [0u8; MAX_INPUT];
    let size = input::read_full(&mut rt.stdin(), &mut buffer)?;
    let mut out = BufWriter::new(rt.alloc(), io::writer(&rt))?;
    print_numbers(&mut out, &buffer[..size])?;
    out.flush()
}

// Reads logs, each through one reader that is asked five times, and prints what each call gave.
#![tactic(auto)]

mod five;
mod print;

use std::io;
use std::io::{BufWriter, Write};

// Reads a log, and prints under a title what each call gave and where the reader stands.
fn read(out: &mut impl Write, title: &str, log: &[u8]) -> io::Result<()> {
    print::title(out, title)?;
    let found = five::read_five(log);
    for record in found.records {
        print::record(out, record)?;
    }
    print::place(out, found.place)
}

fn main(rt: HostRuntime) -> io::Result<()> {
    let mut out = BufWriter::new(rt.alloc(), io::writer(&rt))?;
    read(
        &mut out,
        "A put, a look up, and a record of kind 10",
        b"\x00\x01\x01\xAC\x02\x02\x00\x03\x00\x0A\x00\x03",
    )?;
    read(
        &mut out,
        "A remove, a give up and a commit, to the log's end",
        b"\x07\x02\x63\x00\x09\x0A\x08",
    )?;
    read(
        &mut out,
        "A read, and a put that is cut short",
        b"\x00\x04\x00\x01\x63",
    )?;
    read(&mut out, "A writer longer than needed", b"\x80\x00\x03")?;
    read(
        &mut out,
        "The longest record, and 40 bytes of another",
        b"\
        \xFF\xFF\xFF\xFF\xFF\xFF\xFF\xFF\xFF\x01\x01\
        \xFF\xFF\xFF\xFF\xFF\xFF\xFF\xFF\xFF\x01\
        \xFF\xFF\xFF\xFF\xFF\xFF\xFF\xFF\xFF\x01\
        \xFF\xFF\xFF\xFF\xFF\xFF\xFF\xFF\xFF\x01\
        \xFF\xFF\xFF\xFF\xFF\xFF\xFF\xFF\xFF\x01\x01\
        \xFF\xFF\xFF\xFF\xFF\xFF\xFF\xFF\xFF\x01\
        \xFF\xFF\xFF\xFF\xFF\xFF\xFF\xFF\xFF\x01\
        \xFF\xFF\xFF\xFF\xFF\xFF\xFF\xFF\xFF",
    )?;
    read(&mut out, "No records", b"")?;
    out.flush()
}

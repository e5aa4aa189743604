// What the log writer and the number writer store, and that they store nothing where they refuse.
#![tactic(auto)]

ghost use Rattle.std.specs.Prelude.{◌≡◌};
ghost use Rattle.logwriter.specs.Writing.{answer_of, count_of, log_written};
ghost use Rattle.encoding.specs.Steps.{put_and_look_up};

use common::Word;
use logwriter::Refusal;
use model::{Action, Operation, Step};
use std::io;
use std::io::{BufWriter, Write};

// The largest number.
const LARGEST: Word = Word::MAX;

fn put_and_look_up() -> [Step; 2]
    ensures { result ≡ put_and_look_up }
{
    let put = Operation::Put {
        key: 1,
        value: 300,
        group: 2,
    };
    let start = Step {
        writer: 0,
        action: Action::Start(put),
    };
    let look_up = Step {
        writer: 0,
        action: Action::LookUp,
    };
    [start, look_up]
}

// The log of two steps, written into a buffer from a place on.
fn write_two(buffer: &mut [u8], at: usize) -> Result<usize, Refusal>
    ensures { record { answer = answer_of result; count = count_of result; buffer = buffer.new } ≡ log_written put_and_look_up buffer.old at }
{
    let steps = put_and_look_up();
    logwriter::write_log(&steps, buffer, at)
}

fn write_printed(out: &mut impl Write, label: &[u8], at: usize) -> io::Result<()> {
    let mut buffer = [255u8; 12];
    let (answer, count) = match write_two(&mut buffer, at) {
        Ok(count) => (0, count),
        Err(refusal) => (u8::from(refusal), 0),
    };
    report::written(out, label, answer, count, &buffer)
}

// Eight bytes into a buffer of twelve: past its end, at its end, one byte short of a fit, an exact fit, and with a byte to spare.
fn log_writer(out: &mut impl Write) -> io::Result<()> {
    report::title(out, b"The log writer")?;
    write_printed(out, b"place 13 of 12", 13)?;
    write_printed(out, b"place 12 of 12", 12)?;
    write_printed(out, b"place 5 of 12", 5)?;
    write_printed(out, b"place 4 of 12", 4)?;
    write_printed(out, b"place 3 of 12", 3)
}

// A number into a buffer; the number writer has no answer number but its size, here 0 where the code does not fit.
fn encode_printed(
    out: &mut impl Write,
    label: &[u8],
    number: Word,
    buffer: &mut [u8],
) -> io::Result<()> {
    let size = leb128::encode(number, buffer).unwrap_or(0);
    report::written(out, label, 0, size, buffer)
}

// Into buffers that are one byte short of the code, that fit exactly, and with a byte to spare.
fn number_writer(out: &mut impl Write) -> io::Result<()> {
    report::title(out, b"The number writer")?;
    encode_printed(out, b"0 into 0", 0, &mut [255; 0])?;
    encode_printed(out, b"0 into 1", 0, &mut [255; 1])?;
    encode_printed(out, b"300 into 1", 300, &mut [255; 1])?;
    encode_printed(out, b"300 into 2", 300, &mut [255; 2])?;
    encode_printed(out, b"4294967295 into 4", 4294967295, &mut [255; 4])?;
    encode_printed(out, b"4294967295 into 5", 4294967295, &mut [255; 5])?;
    encode_printed(out, b"4294967296 into 4", 4294967296, &mut [255; 4])?;
    encode_printed(out, b"4294967296 into 5", 4294967296, &mut [255; 5])?;
    encode_printed(out, b"18446744073709551615 into 9", LARGEST, &mut [255; 9])?;
    encode_printed(
        out,
        b"18446744073709551615 into 10",
        LARGEST,
        &mut [255; 10],
    )?;
    encode_printed(
        out,
        b"18446744073709551615 into 11",
        LARGEST,
        &mut [255; 11],
    )
}

fn main(rt: HostRuntime) -> io::Result<()> {
    let mut out = BufWriter::new(rt.alloc(), io::writer(&rt))?;
    log_writer(&mut out)?;
    number_writer(&mut out)?;
    out.flush()
}

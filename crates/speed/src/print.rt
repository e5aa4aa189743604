// Printing what an operation and the scan after it gave.
use common::Word;
use std::io;
use std::io::Write;

// The first answers of a buffer, each on its own line. A count beside its buffer: a slice would ask the caller to prove that the run keeps within it.
pub fn answers(out: &mut impl Write, buffer: &[u8], count: usize) -> io::Result<()> {
    for answer in buffer.iter().take(count) {
        writeln!(out, "{answer}")?;
    }
    Ok(())
}

// The first rows of a buffer, each on its own line; with a count, as the answers.
pub fn rows(out: &mut impl Write, buffer: &[Word], count: usize) -> io::Result<()> {
    let (rows, _) = buffer.as_chunks::<3>();
    for [key, value, group] in rows.iter().take(count) {
        writeln!(out, "{key} {value} {group}")?;
    }
    Ok(())
}

// Printing the candidate instants of a writer, and the numbers that they rest on.
use common::Word;
use model::answers::{Refusal, TAKEN};
use model::{Candidates, InstantList, Table};
use std::io;
use std::io::Write;

// The count of a list, and its timestamps. Behind these one that is not 0 is marked.
fn list(out: &mut impl Write, instants: InstantList) -> io::Result<()> {
    let InstantList { count, timestamps } = instants;
    write!(out, " | {count}:")?;
    for (i, ts) in timestamps.iter().enumerate() {
        if i < count as usize {
            write!(out, " {ts}")?;
        } else if *ts != 0 {
            write!(out, " !{ts}")?;
        }
    }
    Ok(())
}

// What the call for a writer gave: the answer, and the list of each way; a refusal has two empty lists.
pub fn chosen(
    out: &mut impl Write,
    label: &[u8],
    writer: Word,
    found: Result<Candidates, Refusal>,
) -> io::Result<()> {
    out.write_all(label)?;
    match found {
        Err(refusal) => write!(out, "{writer}: {} | 0: | 0:", u8::from(refusal))?,
        Ok(candidates) => {
            write!(out, "{writer}: {TAKEN}")?;
            list(out, candidates.by_start)?;
            list(out, candidates.by_completion)?;
        }
    }
    writeln!(out)
}

// The numbers that are not 0, each behind its index.
fn nonzero_numbers(out: &mut impl Write, label: &str, numbers: &[u8]) -> io::Result<()> {
    write!(out, "{label}:")?;
    for (i, n) in numbers.iter().enumerate() {
        if *n != 0 {
            write!(out, " {i}:{n}")?;
        }
    }
    writeln!(out)
}

// The places of the instants, the counts of the writers and the noted timestamps.
pub fn noted(out: &mut impl Write, t: Table) -> io::Result<()> {
    nonzero_numbers(out, "places", &t.places)?;
    nonzero_numbers(out, "counts", &t.counts)?;
    nonzero_numbers(out, "noted", &t.noted)
}

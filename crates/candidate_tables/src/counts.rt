// Places and counts that no steps give.
use crate::looking::writing;
use model::Table;
use scripts::choose;
use std::io;
use std::io::Write;

// Writer 3 with a count.
fn at_count(out: &mut impl Write, t: Table, count: u8) -> io::Result<()> {
    let mut x = t;
    x.counts[3] = count;
    write!(out, "count {count}")?;
    choose(out, x, b": ", 3)
}

fn at_counts(out: &mut impl Write, label: &[u8], t: Table) -> io::Result<()> {
    out.write_all(b"-- ")?;
    out.write_all(label)?;
    writeln!(out)?;
    at_count(out, t, 0)?;
    at_count(out, t, 1)?;
    at_count(out, t, 2)?;
    at_count(out, t, 127)?;
    at_count(out, t, 128)
}

// Places of the five completed instants.
fn with_places(first: u8, second: u8, third: u8, fourth: u8, fifth: u8) -> Table {
    let mut t = writing();
    t.places[0] = first;
    t.places[1] = second;
    t.places[4] = third;
    t.places[5] = fourth;
    t.places[8] = fifth;
    t
}

// One completed instant has a place; so have instants that are inflight, requested, not there and not issued.
fn not_completed() -> Table {
    let mut t = with_places(2, 0, 0, 0, 0);
    t.places[2] = 9;
    t.places[3] = 9;
    t.places[7] = 9;
    t.places[99] = 9;
    t
}

pub fn places_and_counts(out: &mut impl Write) -> io::Result<()> {
    report::title(out, b"Places and counts that no steps give")?;
    at_counts(out, b"in order", with_places(1, 2, 3, 4, 5))?;
    at_counts(out, b"against the order", with_places(5, 4, 3, 2, 1))?;
    at_counts(out, b"equal", with_places(2, 2, 2, 2, 2))?;
    at_counts(
        out,
        b"0, and of instants that are not completed",
        not_completed(),
    )?;
    at_counts(out, b"the largest", with_places(128, 0, 0, 0, 127))
}

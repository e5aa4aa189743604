// The reads, the cleans and the candidate instants of a table, printed.
ghost use Rattle.std.specs.Prelude.{◌≡◌};
ghost use Rattle.model.specs.State.{state_of};
ghost use Rattle.model.specs.Snapshot.{scan};

use common::Word;
use model::limits::{KEYS, ROWS};
use model::{Table, Value};
use std::io;
use std::io::Write;

// Room for a row of each key.
const ROOM: usize = 3 * KEYS;

// The rows of a table at a timestamp.
pub fn scan(
    out: &mut impl Write,
    t: Table,
    present: &[bool; ROWS],
    values: &[Value; ROWS],
    at: u64,
) -> io::Result<()> {
    let mut buffer = [0; ROOM];
    let found = snapshot::scan(t, present, values, at, &mut buffer);
    report::listing(out, at, found, &buffer)
}

// A scan at a timestamp into a buffer, and the whole buffer after it.
pub fn scan_into(
    out: &mut impl Write,
    t: Table,
    present: &[bool; ROWS],
    values: &[Value; ROWS],
    at: u64,
    buffer: &mut [Value],
) -> io::Result<()>
    ensures { buffer.new ≡ (scan (state_of t present.now values.now) at buffer.old).buffer }
{
    let found = snapshot::scan(t, present, values, at, buffer);
    report::scanned(out, found, buffer)
}

// The row of a key at a timestamp.
pub fn point_read(
    out: &mut impl Write,
    t: Table,
    present: &[bool; ROWS],
    values: &[Value; ROWS],
    at: u64,
    key: Word,
) -> io::Result<()> {
    report::found(out, key, at, snapshot::read(t, present, values, at, key))
}

// A clean at a timestamp, its answer, and the table after it.
pub fn clean(
    out: &mut impl Write,
    t: Table,
    present: &mut [bool; ROWS],
    at: u64,
) -> io::Result<Table> {
    let done = cleaning::clean(t, present, at);
    report::cleaned(out, at, done.answer)?;
    Ok(done.table)
}

// The candidate instants of a writer, chosen both ways, behind a label.
pub fn choose(out: &mut impl Write, t: Table, label: &[u8], writer: Word) -> io::Result<()> {
    report::chosen(out, label, writer, candidates::choose(t, writer))
}

// The state of the instant of a timestamp.
pub fn instant(out: &mut impl Write, t: Table, at: u64) -> io::Result<()> {
    report::instant(out, at, snapshot::instant(t, at))
}

// Tables with every number at its largest, but for some.
use model::instants::{COMPLETED, NONE};
use model::limits::{GROUPS, KEYS, NOTED, TIMESTAMPS, WRITERS};
use model::{Mode, Table, Value, Writer};

// The largest numbers in range. They are the papers', not the code's limits: a wrong limit does not move them. A place and a count have the limit of
// a timestamp.
pub const LAST: u8 = 128;

pub const LOCK: u8 = 16;

pub const KEY: u8 = 31;

pub const GROUP: u8 = 7;

pub const ENTRY: u8 = 8;

pub const PHASE: u8 = 6;

pub const VALUE: Value = 18446744073709551615;

pub const INSTANT: u8 = COMPLETED + GROUP;

// A writer with a put of the largest value, which has made its key's index entry.
pub fn writer(phase: u8, key: u8, group: u8, ts: u8, base: u8) -> Writer {
    Writer {
        phase,
        put: true,
        made: true,
        key,
        group,
        ts,
        base,
        value: VALUE,
    }
}

// A writer with the largest numbers.
pub fn largest_writer() -> Writer {
    writer(PHASE, KEY, GROUP, LAST, LAST)
}

// A table of a mode with the largest numbers.
pub fn largest(mode: Mode) -> Table {
    Table {
        mode,
        horizon: LAST,
        last: LAST,
        locks: [LOCK; GROUPS],
        writers: [largest_writer(); WRITERS],
        index: [ENTRY; KEYS],
        timeline: [INSTANT; TIMESTAMPS],
        places: [LAST; TIMESTAMPS],
        counts: [LAST; WRITERS],
        noted: [LAST; NOTED],
    }
}

// A table with the largest numbers, changed.
pub fn changed<F: FnOnce(&mut Table)>(mut t: Table, change: F) -> Table
    requires { F.IsAlwaysCallable change }
{
    change(&mut t);
    t
}

// An optimistic table with the largest numbers but for these: the last timestamp, the last key's entry, the last instant, the last writer, and the
// writers before it.
pub fn table_of(last: u8, entry: u8, instant: u8, writer: Writer, others: Writer) -> Table {
    let mut t = Table {
        horizon: last,
        last,
        writers: [others; WRITERS],
        noted: [last; NOTED],
        ..largest(Mode::Optimistic)
    };
    t.index[KEYS - 1] = entry;
    t.timeline[TIMESTAMPS - 1] = instant;
    t.writers[WRITERS - 1] = writer;
    t
}

// A table in which only the last writer has other numbers.
pub fn with_writer(x: Writer) -> Table {
    table_of(LAST, ENTRY, INSTANT, x, largest_writer())
}

// The same with one timestamp left: it has no instant, and is out of range though a table may issue it.
pub fn one_left_with_writer(x: Writer) -> Table {
    table_of(
        LAST - 1,
        ENTRY,
        NONE,
        x,
        writer(PHASE, KEY, GROUP, LAST - 1, LAST - 1),
    )
}

// A table with one timestamp left, and every other number at its largest.
pub fn one_left() -> Table {
    one_left_with_writer(writer(PHASE, KEY, GROUP, LAST - 1, LAST - 1))
}

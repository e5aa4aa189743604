// A table as a row of numbers, every field of it: mode, horizon, last timestamp, locks, index, timeline, places, counts, noted timestamps, and the writers.
use common::Word;
use model::limits::{GROUPS, KEYS, NOTED, TIMESTAMPS, WRITERS};
use model::{Mode, Table, Writer};

// Where each field begins.
const MODE: usize = 0;

const HORIZON: usize = 1;

const LAST: usize = 2;

const LOCKS: usize = 3;

const INDEX: usize = LOCKS + GROUPS;

const TIMELINE: usize = INDEX + KEYS;

const PLACES: usize = TIMELINE + TIMESTAMPS;

const COUNTS: usize = PLACES + TIMESTAMPS;

const NOTED_TIMESTAMPS: usize = COUNTS + WRITERS;

const WRITERS_NUMBERS: usize = NOTED_TIMESTAMPS + NOTED;

// The numbers of a writer.
const FIELDS: usize = 8;

// All numbers of a table but for its rows.
pub const NUMBERS: usize = WRITERS_NUMBERS + FIELDS * WRITERS;

// The mode of a number: 0 is optimistic, and every other pessimistic.
fn mode_of(n: Word) -> Mode {
    if n == 0 {
        return Mode::Optimistic;
    }
    Mode::Pessimistic
}

// A number of a writer: its phase, is it a put, has it made its entry, key, file group, timestamp, base, value.
fn writer_number(x: Writer, field: usize) -> Word {
    match field {
        0 => x.phase as Word,
        1 => Word::from(x.put),
        2 => Word::from(x.made),
        3 => x.key as Word,
        4 => x.group as Word,
        5 => x.ts as Word,
        6 => x.base as Word,
        _ => x.value,
    }
}

// A writer with another number.
fn with_writer_number(x: Writer, field: usize, n: Word) -> Writer {
    let byte = byte_of(n);
    let flag = n != 0;
    match field {
        0 => Writer { phase: byte, ..x },
        1 => Writer { put: flag, ..x },
        2 => Writer { made: flag, ..x },
        3 => Writer { key: byte, ..x },
        4 => Writer { group: byte, ..x },
        5 => Writer { ts: byte, ..x },
        6 => Writer { base: byte, ..x },
        _ => Writer { value: n, ..x },
    }
}

// The number at a place; 0 past the last.
pub fn number_at(t: &Table, place: usize) -> Word {
    match place {
        MODE => t.mode as Word,
        HORIZON => t.horizon as Word,
        LAST => t.last as Word,
        LOCKS..INDEX => t.locks[place - LOCKS] as Word,
        INDEX..TIMELINE => t.index[place - INDEX] as Word,
        TIMELINE..PLACES => t.timeline[place - TIMELINE] as Word,
        PLACES..COUNTS => t.places[place - PLACES] as Word,
        COUNTS..NOTED_TIMESTAMPS => t.counts[place - COUNTS] as Word,
        NOTED_TIMESTAMPS..WRITERS_NUMBERS => t.noted[place - NOTED_TIMESTAMPS] as Word,
        WRITERS_NUMBERS..NUMBERS => {
            let at = place - WRITERS_NUMBERS;
            writer_number(t.writers[at / FIELDS], at % FIELDS)
        }
        _ => 0,
    }
}

// A number that is a byte.
fn byte_of(n: Word) -> u8 {
    (n % 256) as u8
}

// A table with another number at a place; past the last nothing changes.
pub fn with_number(mut t: Table, place: usize, n: Word) -> Table {
    let byte = byte_of(n);
    match place {
        MODE => t.mode = mode_of(n),
        HORIZON => t.horizon = byte,
        LAST => t.last = byte,
        LOCKS..INDEX => t.locks[place - LOCKS] = byte,
        INDEX..TIMELINE => t.index[place - INDEX] = byte,
        TIMELINE..PLACES => t.timeline[place - TIMELINE] = byte,
        PLACES..COUNTS => t.places[place - PLACES] = byte,
        COUNTS..NOTED_TIMESTAMPS => t.counts[place - COUNTS] = byte,
        NOTED_TIMESTAMPS..WRITERS_NUMBERS => t.noted[place - NOTED_TIMESTAMPS] = byte,
        WRITERS_NUMBERS..NUMBERS => {
            let at = place - WRITERS_NUMBERS;
            t.writers[at / FIELDS] = with_writer_number(t.writers[at / FIELDS], at % FIELDS, n);
        }
        _ => {}
    }
    t
}

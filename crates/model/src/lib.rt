// The types of a table, of its steps and of its reads. specs/ gives their meaning.
#![tactic(auto)]

pub mod answers;
pub mod instants;
pub mod limits;

use common::Word;
use limits::{GROUPS, KEYS, NOTED, TIMESTAMPS, WRITERS};

// What a key holds: a number of a log. No steps put the erased word.
pub type Value = Word;

// A writer, with its operation in progress. A ready writer is at phase 0; in a table that steps have reached it keeps zeros.
#[derive(Clone, Copy)]
pub struct Writer {
    pub phase: u8,
    pub put: bool,
    // Has its operation made the index entry of its key?
    pub made: bool,
    pub key: u8,
    pub group: u8,
    pub ts: u8,
    pub base: u8,
    pub value: Value,
}

// How a table keeps its writers apart: by one lock and a check before the commit, or by a lock for each file group.
#[derive(Clone, Copy)]
pub enum Mode {
    Optimistic,
    Pessimistic,
}

// The metadata of a table. Its rows are two arrays that stand beside it. Phases, locks, entries and instants are bytes and no enums or Options: any may be
// handed in, and one out of range has to be told (answer 17).
#[derive(Clone, Copy)]
pub struct Table {
    // First: at any other place padding stands before them, and the compiler copies them twice (docs/DECISIONS.md).
    pub writers: [Writer; WRITERS],
    // Chosen for good when the table is made.
    pub mode: Mode,
    // The timestamp of the last clean that was taken, or 0. Reads and scans below it are refused.
    pub horizon: u8,
    // The last timestamp issued.
    pub last: u8,
    // 0: free; w + 1: held by writer w. An optimistic table has one lock, the first; a pessimistic one has a lock for each file group.
    pub locks: [u8; GROUPS],
    // Of each key: 0, or its file group + 1.
    pub index: [u8; KEYS],
    // The instant of timestamp n, at n - 1, as the module instants codes it.
    pub timeline: [u8; TIMESTAMPS],
    // The place of timestamp n in the order of completions, at n - 1: 0 before its commit.
    pub places: [u8; TIMESTAMPS],
    // Of each writer: how many instants had completed when its operation started.
    pub counts: [u8; WRITERS],
    // A row of WRITERS timestamps for each writer: those that the operations in progress held when its operation started, 0 for none.
    pub noted: [u8; NOTED],
}

// What a start carries.
#[derive(Clone, Copy)]
pub enum Operation {
    Put {
        key: Word,
        value: Value,
        group: Word,
    },
    Remove {
        key: Word,
    },
}

// What a writer does. Abort is document 01's give up.
#[derive(Clone, Copy)]
pub enum Action {
    Start(Operation),
    LookUp,
    Read,
    Write,
    Index,
    Check,
    Commit,
    Abort,
}

// What one writer does next.
#[derive(Clone, Copy)]
pub struct Step {
    pub writer: Word,
    pub action: Action,
}

// The answer to a step or a clean, and the table after it.
#[derive(Clone, Copy)]
pub struct Stepped {
    pub answer: u8,
    pub table: Table,
}

// The row of a key that a point read finds.
#[derive(Clone, Copy, PartialEq, Eq, Debug)]
pub struct Found {
    pub value: Value,
    pub group: u8,
}

// Instants by rising timestamp: how many, and their timestamps; the unused places are 0. A count beside its array: fixed memory, no heap.
#[derive(Clone, Copy)]
pub struct InstantList {
    pub count: u8,
    pub timestamps: [u8; TIMESTAMPS],
}

// The candidates of a commit, chosen in two ways: by the starts of the instants and by their completions.
#[derive(Clone, Copy)]
pub struct Candidates {
    pub by_start: InstantList,
    pub by_completion: InstantList,
}

// The state of an instant, with its file group from inflight on.
#[derive(Clone, Copy)]
pub enum InstantState {
    None,
    Requested,
    Inflight(u8),
    Completed(u8),
}

// Cases that are read from an input: logs with cleans and other calls between their steps. The input is items, each two numbers in the coding of the log, a kind
// and a number N: 0, a fresh optimistic table for the case N; 1, a pessimistic one; 2, a log, which is the next N bytes; 3, a log that is run step by
// step; 4, a clean at the timestamp N; 5, what the reads give at each timestamp, with point reads of the keys below N, and which rows are stored; 6, the
// candidate instants of each writer below N; 7, those of the writer N; 8, the places, counts and noted timestamps that are not 0. Then
// those that set a table's numbers, and try calls on a table that stays as it is, each with N bytes (11 with the timestamp N): 9, pairs of a place and the
// number there; 10, a log, each record as one step and then the whole; 11, a clean; 12, a timestamp and a key, read; 13, a timestamp and a room, scanned.
// An item that is cut short ends the input.
#![tactic(auto)]

mod items;
mod show;
mod takes;

use model::limits::ROWS;
use model::{Mode, Value};
use std::io;
use std::io::{Read, Write};

// Room for the whole input.
const MAX_INPUT: usize = 524288;

// Takes the items that a reader gives one after the other, and prints what they give.
pub fn take_input(out: &mut impl Write, reader: &mut impl Read) -> io::Result<()> {
    let mut input = [0u8; MAX_INPUT];
    let size = input::read_full(reader, &mut input)?;
    let mut present = [false; ROWS];
    let mut values: [Value; ROWS] = [0; ROWS];
    let t = table::fresh(Mode::Optimistic, &mut present, &mut values);
    takes::take_each(out, t, &mut present, &mut values, &input[..size])
}

// Tables whose numbers are set, as pairs of numbers in the coding of the log say: a place, and the number there. Behind the numbers of a table stand
// those of its rows, first which are present, then their values.
ghost use Rattle.std.specs.Prelude.{◌-◌, length};
ghost use Rattle.std.specs.Iterator.{at_most};

use crate::numbers::{NUMBERS, with_number};
use common::Word;
use model::limits::ROWS;
use model::{Table, Value};

// The pairs of numbers of an input, from a place on.
#[derive(Clone, Copy)]
pub struct Pairs<'a> {
    input: &'a [u8],
    at: usize,
}

impl<'a> Pairs<'a> {
    // The pairs of an input.
    pub fn of(input: &'a [u8]) -> Pairs<'a> {
        Pairs { input, at: 0 }
    }

    // The pair at the place, and the place behind it, if it is not cut short.
    fn whole(&self) -> Option<(Word, Word, usize)> {
        let first = leb128::decode(self.input, self.at).ok()?;
        let second = leb128::decode(self.input, first.next).ok()?;
        Some((first.value, second.value, second.next))
    }
}

impl Iterator for Pairs<'_> {
    type Item = (Word, Word);

    ghost remaining = { λ s. at_most (length s.input.now - s.at) };

    // A pair that is cut short is the last, and has zeros.
    fn next(&mut self) -> Option<(Word, Word)> {
        if self.input.len() <= self.at {
            return None;
        }
        let (first, second, next) = self.whole().unwrap_or((0, 0, self.input.len()));
        self.at = next.max(self.at + 1);
        Some((first, second))
    }
}

// Sets a number of the rows; one past the last changes nothing.
fn set_row(present: &mut [bool; ROWS], values: &mut [Value; ROWS], place: usize, n: Word) {
    if place < ROWS {
        present[place] = n != 0;
    } else if place - ROWS < ROWS {
        values[place - ROWS] = n;
    }
}

// Sets one number.
fn set_number(
    t: Table,
    present: &mut [bool; ROWS],
    values: &mut [Value; ROWS],
    place: usize,
    n: Word,
) -> Table {
    if place < NUMBERS {
        return with_number(t, place, n);
    }
    set_row(present, values, place - NUMBERS, n);
    t
}

// Sets the numbers that the pairs name.
pub fn set(
    mut t: Table,
    present: &mut [bool; ROWS],
    values: &mut [Value; ROWS],
    input: &[u8],
) -> Table {
    for (place, n) in Pairs::of(input) {
        t = set_number(t, present, values, place as usize, n);
    }
    t
}

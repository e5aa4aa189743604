// The rows that given file slices show: all of them, listed, and the first one of a key. `slices` has the timestamp of
// each file group's slice, or 0 for none; a timestamp above the last has none either.
#![tactic(auto)]

mod counting;
mod places;
mod storing;

ghost use Rattle.std.specs.Prelude.{◌≡◌};
ghost use Rattle.model.specs.Snapshot.{rows_of, all_rows, listed_if_fits, first_of};
ghost use Rattle.model.specs.Calls.{scanned};
ghost use Rattle.shown_rows.specs.Slices.{slice_in};

use common::Word;
use model::answers::Refusal;
use model::limits::{GROUPS, KEYS, ROWS};
use model::{Found, Value};
use places::Shown;

// The rows that the file groups' slices show, three numbers each, into a lent buffer, if it has room for all.
pub fn list(
    slices: [u8; GROUPS],
    present: &[bool; ROWS],
    values: &[Value; ROWS],
    buffer: &mut [Word],
) -> Result<usize, Refusal>
    ensures { scanned result buffer ≡ listed_if_fits (all_rows present.now values.now (slice_in slices)) buffer.old }
{
    let shown = Shown {
        slices,
        present,
        values,
    };
    let counts = counting::count_slices(&shown);
    let count = counts.total();
    if buffer.len() < 3 * count {
        return Err(Refusal::NoRoom);
    }
    storing::store(&shown, &counts, buffer);
    Ok(count)
}

// The first row of a key: that of the lowest file group that shows it. A key past the last has none.
pub fn first_row(
    slices: [u8; GROUPS],
    present: &[bool; ROWS],
    values: &[Value; ROWS],
    key: usize,
) -> Option<Found>
    ensures { result ≡ first_of (rows_of present.now values.now (slice_in slices) key) }
{
    if key >= KEYS {
        return None;
    }
    let shown = Shown {
        slices,
        present,
        values,
    };
    for group in 0..GROUPS {
        if shown.has_row(group, key) {
            return Some(Found {
                value: shown.value_at(group, key),
                group: group as u8,
            });
        }
    }
    None
}

// Reading a table at a timestamp.
#![tactic(auto)]

mod newest;

ghost use Rattle.std.specs.Prelude.{◌≡◌, Bool, List, ℕ};
ghost use Rattle.model.specs.State.{state_of};
ghost use Rattle.model.specs.Snapshot.{scan, point_read, found_numbers, instant_state, instant_at, instant_numbers};
ghost use Rattle.model.specs.Calls.{scanned};
ghost use Rattle.snapshot.specs.Inner.{admission};

use common::Word;
use metadata::{in_range, instant_of, parts_in_range};
use model::answers::Refusal;
use model::instants::{COMPLETED, INFLIGHT, NONE, REQUESTED};
use model::limits::{KEYS, ROWS};
use model::{Found, InstantState, Table, Value};

// Is a read at a timestamp admitted, of a table whose range test gave `tested`?
fn admitted(tested: bool, at: u64, horizon: u8) -> Result<(), Refusal>
    ensures { result ≡ admission tested at horizon }
{
    let below = at < horizon as u64;
    if !tested {
        Err(Refusal::OutOfRange)
    } else if below {
        Err(Refusal::BelowHorizon)
    } else {
        Ok(())
    }
}

// The rows at a timestamp, three numbers each, into a lent buffer. The table is taken apart for the range test: handed on whole it would be copied.
pub fn scan(
    t: Table,
    present: &[bool; ROWS],
    values: &[Value; ROWS],
    at: u64,
    buffer: &mut [Word],
) -> Result<usize, Refusal>
    ensures { scanned result buffer ≡ scan (state_of t present.now values.now) at buffer.old }
{
    let locks = t.locks;
    let writers = t.writers;
    let index = t.index;
    let timeline = t.timeline;
    let places = t.places;
    let counts = t.counts;
    let noted = t.noted;
    let tested = parts_in_range(
        t.horizon, t.last, &locks, writers, &index, &timeline, &places, &counts, &noted,
    );
    admitted(tested, at, t.horizon)?;
    let slices = newest::newest_of_groups(timeline, at);
    shown_rows::list(slices, present, values, buffer)
}

// The row of a key at a timestamp.
#[tactic(auto, unfolding(model::specs::Snapshot::point_read))]
pub fn read(
    t: Table,
    present: &[bool; ROWS],
    values: &[Value; ROWS],
    at: u64,
    key: Word,
) -> Result<Option<Found>, Refusal>
    ensures { found_numbers result ≡ found_numbers (point_read (state_of t present.now values.now) at key) }
{
    admitted(in_range(t), at, t.horizon)?;
    if key >= KEYS as Word {
        return Err(Refusal::NoKey);
    }
    let timeline = t.timeline;
    let slices = newest::newest_of_groups(timeline, at);
    let found = shown_rows::first_row(slices, present, values, key as usize);
    Ok(found)
}

// What an instant's number means.
#[tactic(auto, unfolding(model::specs::Snapshot::instant_state))]
fn state_of(instant: u8) -> InstantState
    ensures { result ≡ instant_state instant }
{
    match instant {
        NONE => InstantState::None,
        REQUESTED => InstantState::Requested,
        INFLIGHT..COMPLETED => InstantState::Inflight(instant - INFLIGHT),
        _ => InstantState::Completed(instant - COMPLETED),
    }
}

// The state of the instant of a timestamp (document 01's third call).
#[tactic(auto, unfolding(model::specs::Snapshot::instant_at))]
pub fn instant(t: Table, at: u64) -> Result<InstantState, Refusal>
    ensures { (present : List Bool) (values : List ℕ) → instant_numbers result ≡ instant_numbers (instant_at (state_of t present values) at) }
{
    if !in_range(t) {
        return Err(Refusal::OutOfRange);
    }
    let timeline = t.timeline;
    Ok(state_of(instant_of(&timeline, at)))
}

// Answer 17: is every stored number of a table in its range?
ghost use Rattle.std.specs.Prelude.{◌≡◌, Bool, ◌&&◌, List, ℕ, max, drop};
ghost use Rattle.model.specs.State.{Notes, State, notes, state_of};
ghost use Rattle.model.specs.Range.{writer_in_range, writers_in_range, all_at_most, notes_in_range, in_range};
ghost use Rattle.metadata.specs.Actor.{actor_in_range};
ghost use Rattle.metadata.specs.Inner.{keeps_zeros, shared_in_range};
ghost use Rattle.model.specs.declared.Writer.{Writer};
ghost use Rattle.metadata.specs.Largest.{largest};
ghost use Rattle.metadata.specs.Parts.{with_parts};

use model::instants::{LARGEST, NONE};
use model::limits::{GROUPS, KEYS, LAST_PHASE, NOTED, TIMESTAMPS, WRITERS};
use model::{Table, Writer};

// Does a writer keep zeros, as a ready one does? Its value and its flags have no range and are not asked. One test of all bits, not one of each number.
fn keeps_zeros(x: Writer) -> bool
    ensures { result ≡ keeps_zeros x }
{
    let bits = x.phase | x.key | x.group | x.ts | x.base;
    bits == 0
}

// Are the numbers of a writer in range? Most writers keep zeros, so that is asked first.
fn writer_in_range(x: Writer, last: u8) -> bool
    ensures { result ≡ writer_in_range last x }
{
    if keeps_zeros(x) {
        return true;
    }
    x.key < KEYS as u8
        && x.group < GROUPS as u8
        && x.phase <= LAST_PHASE
        && x.ts <= last
        && x.base <= last
        && (x.phase == 0 || 0 < x.ts)
}

// Is the record of a writer in range, and the last timestamp?
pub fn actor_in_range(last: u8, x: Writer) -> bool
    ensures { result ≡ actor_in_range last x }
{
    last <= TIMESTAMPS as u8 && writer_in_range(x, last)
}

// The largest of some numbers. The loop has no exit, so that it runs on whole vectors.
fn largest(numbers: &[u8]) -> u8
    ensures { result ≡ largest numbers.now }
{
    let mut most: u8 = 0;
    for x in numbers {
        most = most.max(*x);
    }
    most
}

// Is each of some numbers at most n?
#[tactic(auto, using(crate::proofs::Largest::at_most_largest))]
fn all_at_most(n: u8, numbers: &[u8]) -> bool
    ensures { result ≡ all_at_most n numbers.now }
{
    largest(numbers) <= n
}

// Are the horizon and the numbers that all writers share in range? If so, the writers decide, and what is noted.
fn shared_in_range(
    horizon: u8,
    last: u8,
    locks: &[u8; GROUPS],
    index: &[u8; KEYS],
    timeline: &[u8; TIMESTAMPS],
) -> bool
    ensures { result ≡ shared_in_range horizon last locks.now index.now timeline.now }
{
    last <= TIMESTAMPS as u8
        && horizon <= last
        && all_at_most(WRITERS as u8, locks)
        && all_at_most(GROUPS as u8, index)
        && all_at_most(LARGEST, timeline)
        && all_at_most(NONE, &timeline[last as usize..])
}

// Is what is noted for the candidates of a commit in range?
fn notes_in_range(
    last: u8,
    places: &[u8; TIMESTAMPS],
    counts: &[u8; WRITERS],
    noted: &[u8; NOTED],
) -> bool
    ensures { result ≡ notes_in_range last (notes places.now counts.now noted.now) }
{
    all_at_most(TIMESTAMPS as u8, places)
        && all_at_most(TIMESTAMPS as u8, counts)
        && all_at_most(last, noted)
}

// Are the records of all writers in range?
fn writers_in_range(last: u8, writers: &[Writer; WRITERS]) -> bool
    ensures { result ≡ writers_in_range last writers.now }
{
    writers.iter().all(|x| writer_in_range(*x, last))
}

// Is every stored number of a table in its range? The table comes in its parts, so that no caller copies it whole for the test, and the writers are
// lent on, so that they are not copied again.
#[tactic(auto, using(crate::proofs::Parts::parts_lem))]
pub fn parts_in_range<'a>(
    horizon: u8,
    last: u8,
    locks: &'a [u8; GROUPS],
    writers: [Writer; WRITERS],
    index: &'a [u8; KEYS],
    timeline: &'a [u8; TIMESTAMPS],
    places: &'a [u8; TIMESTAMPS],
    counts: &'a [u8; WRITERS],
    noted: &'a [u8; NOTED],
) -> bool
    ensures { (st : State) → st.horizon ≡ horizon
        → result ≡ in_range (with_parts st last locks.now writers index.now timeline.now
        (notes places.now counts.now noted.now)) }
{
    shared_in_range(horizon, last, locks, index, timeline)
        && notes_in_range(last, places, counts, noted)
        && writers_in_range(last, &writers)
}

// The same of a table. Its rows have no number with a range.
pub fn in_range(t: Table) -> bool
    ensures { (present : List Bool) (values : List ℕ) → result ≡ in_range (state_of t present values) }
{
    let locks = t.locks;
    let writers = t.writers;
    let index = t.index;
    let timeline = t.timeline;
    let places = t.places;
    let counts = t.counts;
    let noted = t.noted;
    parts_in_range(
        t.horizon, t.last, &locks, writers, &index, &timeline, &places, &counts, &noted,
    )
}

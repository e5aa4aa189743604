// Cleaning: a call between steps that drops the completed file slices which no read at or above a timestamp shows. It is no rule of a writer.
#![tactic(auto)]

ghost use Rattle.std.specs.Prelude.{◌≡◌, true, List, ℕ, ◌≤◌};
ghost use Rattle.model.specs.Limits.{timestamps};
ghost use Rattle.model.specs.State.{state_of};
ghost use Rattle.model.specs.Range.{instants_in_range};
ghost use Rattle.model.specs.Rules.{answered};
ghost use Rattle.model.specs.Cleaning.{drops, loses_base, bases_kept, swept, clean};

use metadata::{in_range, instant_of, newest_of};
use model::answers::{BASE_NEEDED, NO_HORIZON, OUT_OF_RANGE, TAKEN};
use model::instants::COMPLETED;
use model::limits::{ROWS, TIMESTAMPS, WRITERS};
use model::{Stepped, Table, Writer};
use slices::drop_slice;

// Does a clean drop the slice of a timestamp?
#[tactic(auto, unfolding(model::specs::Cleaning::drops))]
fn drops(timeline: &[u8], at: u8, ts: u8) -> bool
    ensures { result ≡ drops timeline.now at ts }
{
    let instant = instant_of(timeline, ts as u64);
    instant >= COMPLETED && ts < newest_of(timeline, instant - COMPLETED, at)
}

// Would a writer lose its base, which it is about to copy?
fn loses_base(timeline: &[u8], at: u8, x: Writer) -> bool
    ensures { result ≡ loses_base timeline.now at x }
{
    x.phase == 3 && drops(timeline, at, x.base)
}

// Does every writer keep its base?
fn bases_kept(timeline: &[u8], at: u8, writers: &[Writer; WRITERS]) -> bool
    ensures { result ≡ bases_kept timeline.now at writers.now }
{
    writers.iter().all(|x| !loses_base(timeline, at, *x))
}

// Drops the slices, from the first timestamp on. None above the horizon is dropped.
fn sweep(timeline: &[u8; TIMESTAMPS], at: u8, present: &mut [bool; ROWS])
    requires { (instants_in_range timeline.now ≡ true) × (at ≤ timestamps) }
    ensures { present.new ≡ swept timeline.now at present.old at }
{
    for n in 1..=at {
        if drops(timeline, at, n) {
            let instant = instant_of(timeline, n as u64);
            drop_slice(&mut *present, instant - COMPLETED, n);
        }
    }
}

// A clean at a timestamp, which becomes the horizon. It is lent the presence of rows alone: the values stay.
pub fn clean(mut t: Table, present: &mut [bool; ROWS], at: u64) -> Stepped
    ensures { (values : List ℕ) → answered result.answer (state_of result.table present.new values)
        ≡ clean (state_of t present.old values) at }
{
    if !in_range(t) {
        return Stepped {
            answer: OUT_OF_RANGE,
            table: t,
        };
    }
    if at < t.horizon as u64 {
        return Stepped {
            answer: NO_HORIZON,
            table: t,
        };
    }
    if at > t.last as u64 {
        return Stepped {
            answer: NO_HORIZON,
            table: t,
        };
    }
    let horizon = at as u8;
    if !bases_kept(&t.timeline, horizon, &t.writers) {
        return Stepped {
            answer: BASE_NEEDED,
            table: t,
        };
    }
    sweep(&t.timeline, horizon, &mut *present);
    t.horizon = horizon;
    Stepped {
        answer: TAKEN,
        table: t,
    }
}

// The completed instants of a timeline, counted, and the place of one in the order of completions.
ghost use Rattle.std.specs.Prelude.{◌≡◌, cond, ◌+◌, length};
ghost use Rattle.model.specs.Limits.{timestamps};
ghost use Rattle.model.specs.State.{has_completed};
ghost use Rattle.model.specs.Notes.{completed_count, set_timestamp, others_completed};
ghost use Rattle.notes.specs.Inner.{CountIs};

use model::instants::COMPLETED;

// 1 for a completed instant, 0 for another.
fn one_if_completed(instant: u8) -> u8
    ensures { result ≡ cond (has_completed instant) 1 0 }
{
    u8::from(instant >= COMPLETED)
}

// How many instants are completed. The loop has no exit, so that it runs on whole vectors.
pub fn completed_count(timeline: &[u8]) -> u8
    requires { length timeline.now ≡ timestamps }
    ensures { CountIs result (completed_count timeline.now) }
{
    let mut count: u8 = 0;
    for instant in timeline {
        count += one_if_completed(*instant);
    }
    count
}

// How many are completed besides that of a timestamp. Timestamp 0, and one past the last, has none.
fn others_completed(timeline: &[u8], ts: u8) -> u8
    requires { length timeline.now ≡ timestamps }
    ensures { CountIs result (others_completed timeline.now ts) }
{
    let count = completed_count(timeline);
    if ts == 0 {
        return count;
    }
    let slot = (ts - 1) as usize;
    if slot >= timeline.len() {
        return count;
    }
    let own = one_if_completed(timeline[slot]);
    count - own
}

// The place of a timestamp whose instant is completed now: one more than the number of the others.
pub fn note_completion(ts: u8, timeline: &[u8], places: &mut [u8])
    requires { length timeline.now ≡ timestamps }
    ensures { places.new ≡ set_timestamp places.old ts (others_completed timeline.now ts + 1) }
{
    let others = others_completed(timeline, ts);
    if ts == 0 {
        return;
    }
    let slot = (ts - 1) as usize;
    if slot >= places.len() {
        return;
    }
    places[slot] = others + 1;
}

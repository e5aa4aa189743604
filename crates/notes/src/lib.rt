// What is noted after each step for the candidates of a commit: an instant's place in the order of completions; how many instants had completed when an
// operation started, and which timestamps the operations in progress held then.
#![tactic(auto)]

mod completed;
mod rows;

ghost use Rattle.std.specs.Prelude.{◌≡◌, List, ℕ, ◌<◌};
ghost use Rattle.model.specs.Limits as limits;
ghost use Rattle.model.specs.State.{notes};
ghost use Rattle.model.specs.Notes as noting;

use completed::{completed_count, note_completion};
use model::answers::{ABORTED, COMMITTED, TAKEN};
use model::limits::{NOTED, TIMESTAMPS, WRITERS};
use model::{Action, Writer};
use rows::{held_timestamps, note_row};

// Is an action a start?
fn is_start(action: Action) -> bool
    ensures { result ≡ noting.is_start action }
{
    matches!(action, Action::Start(_))
}

// Writer w's operation starts.
fn note_start(
    w: usize,
    writers: &[Writer; WRITERS],
    timeline: &[u8; TIMESTAMPS],
    counts: &mut [u8; WRITERS],
    noted: &mut [u8; NOTED],
)
    requires { w < limits.writers }
    ensures { (places : List ℕ) → notes places counts.new noted.new
        ≡ noting.start_noted (notes places counts.old noted.old) w writers.now timeline.now }
{
    counts[w] = completed_count(timeline);
    let held = held_timestamps(writers);
    note_row(w, &held, &mut *noted);
}

// Writer w's operation ends or commits: the writer keeps neither its count nor the timestamps.
fn note_end(w: usize, counts: &mut [u8; WRITERS], noted: &mut [u8; NOTED])
    requires { w < limits.writers }
    ensures { (places : List ℕ) → notes places counts.new noted.new
        ≡ noting.notes_cleared (notes places counts.old noted.old) w }
{
    counts[w] = 0;
    let zeros = [0u8; WRITERS];
    note_row(w, &zeros, &mut *noted);
}

// What is noted after an action of writer w and its answer: the writer's timestamp and the writers are as before it, the timeline as after it. A refusal
// notes nothing, and so does a writer past the last. The timestamp is handed in, so that the writers are asked at a start alone and not copied at each step.
// The answer is a number: `note` promises what is noted after any number, also one that no paper names.
pub fn note(
    w: usize,
    action: Action,
    answer: u8,
    ts: u8,
    writers: [Writer; WRITERS],
    timeline: &[u8; TIMESTAMPS],
    places: &mut [u8; TIMESTAMPS],
    counts: &mut [u8; WRITERS],
    noted: &mut [u8; NOTED],
)
    ensures { notes places.new counts.new noted.new
        ≡ noting.notes_after (notes places.old counts.old noted.old) w action answer ts writers timeline.now }
{
    if w >= WRITERS {
        return;
    }
    if answer > ABORTED {
        return;
    }
    if answer == TAKEN {
        if is_start(action) {
            note_start(w, &writers, timeline, &mut *counts, &mut *noted);
        }
        return;
    }
    if answer == COMMITTED {
        note_completion(ts, timeline, &mut *places);
        note_end(w, &mut *counts, &mut *noted);
        return;
    }
    note_end(w, &mut *counts, &mut *noted);
}

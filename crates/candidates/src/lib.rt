// The candidates of a commit: the completed instants that ran beside an operation, chosen in two ways. Each way is lent what it may use, and nothing else.
#![tactic(auto)]

mod listing;
mod ways;

ghost use Rattle.std.specs.Prelude.{◌≡◌, Bool, List, ℕ};
ghost use Rattle.model.specs.State.{state_of};
ghost use Rattle.model.specs.Calls.{chosen};
ghost use Rattle.model.specs.Candidates as specs;

use common::Word;
use metadata::in_range;
use model::answers::Refusal;
use model::limits::WRITERS;
use model::{Candidates, Table};
use ways::{by_completion, by_start};

// The candidates of the operation that a writer has in progress.
#[tactic(auto, unfolding(model::specs::Candidates::candidates))]
pub fn choose(t: Table, writer: Word) -> Result<Candidates, Refusal>
    ensures { (present : List Bool) (values : List ℕ) → chosen result ≡ specs.candidates (state_of t present values) writer }
{
    let tested = in_range(t);
    if !tested {
        return Err(Refusal::OutOfRange);
    }
    if writer >= WRITERS as Word {
        return Err(Refusal::NoWriter);
    }
    let w = writer as usize;
    let x = t.writers[w];
    if x.phase == 0 {
        return Err(Refusal::WrongPhase);
    }
    let count = t.counts[w];
    let by_start = by_start(&t.timeline, &t.noted, w, x.ts);
    let by_completion = by_completion(&t.timeline, &t.places, count);
    Ok(Candidates {
        by_start,
        by_completion,
    })
}

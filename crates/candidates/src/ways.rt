// The two ways to choose: each lists the completed ones of the timestamps that it picks.
ghost use Rattle.std.specs.Prelude.{◌≡◌, ◌<◌};
ghost use Rattle.model.specs.Limits.{writers};
ghost use Rattle.model.specs.Candidates as specs;

use crate::listing::completed_that;
use model::InstantList;
use model::limits::{NOTED, TIMESTAMPS, WRITERS};

// Has writer w noted a timestamp?
fn has_noted(noted: &[u8; NOTED], w: usize, ts: u8) -> bool
    requires { w < writers }
    ensures { result ≡ specs.has_noted noted.now w ts }
{
    noted[w * WRITERS..][..WRITERS].contains(&ts)
}

// Way one: of the instants that were pending when the operation of writer w started, and of those with a later start than its own, the completed ones.
#[tactic(auto, unfolding(model::specs::Candidates::by_start))]
pub fn by_start(timeline: &[u8; TIMESTAMPS], noted: &[u8; NOTED], w: usize, own: u8) -> InstantList
    requires { w < writers }
    ensures { result ≡ specs.filled (specs.by_start timeline.now noted.now w own) }
{
    completed_that(timeline, |ts| has_noted(noted, w, ts) || own < ts)
}

// Way two: the completed instants with a place above the count of those that had completed when the operation started.
#[tactic(auto, unfolding(model::specs::Candidates::by_completion))]
pub fn by_completion(
    timeline: &[u8; TIMESTAMPS],
    places: &[u8; TIMESTAMPS],
    count: u8,
) -> InstantList
    ensures { result ≡ specs.filled (specs.by_completion timeline.now places.now count) }
{
    completed_that(timeline, |ts| places[ts as usize - 1] > count)
}

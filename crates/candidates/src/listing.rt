// The list of the completed instants of which a test holds.
ghost use Rattle.std.specs.Prelude.{◌≡◌, ◌<◌, ◌≤◌, Bool, ℕ};
ghost use Rattle.model.specs.Limits.{timestamps};
ghost use Rattle.model.specs.State.{has_completed};
ghost use Rattle.model.specs.Candidates as specs;
ghost use Rattle.candidates.specs.Inner.{Tells};

use model::InstantList;
use model::instants::COMPLETED;
use model::limits::TIMESTAMPS;

// Is an instant completed, in any file group?
fn has_completed(instant: u8) -> bool
    ensures { result ≡ has_completed instant }
{
    instant >= COMPLETED
}

// The completed timestamps of which a test holds, rising.
pub fn completed_that<F: Fn(u8) -> bool>(timeline: &[u8; TIMESTAMPS], test: F) -> InstantList
    requires { (n : ℕ) → 0 < n → n ≤ timestamps → F.pre test n }
    ensures { (p : ℕ → Bool) → Tells (F.post test) p → result ≡ specs.filled (specs.completed_that timeline.now p) }
{
    let mut timestamps = [0u8; TIMESTAMPS];
    let mut count: u8 = 0;
    for (i, instant) in timeline.iter().enumerate() {
        let ts = i as u8 + 1;
        if has_completed(*instant) && test(ts) {
            timestamps[count as usize] = ts;
            count += 1;
        }
    }
    InstantList { count, timestamps }
}

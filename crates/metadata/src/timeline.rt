// The timeline, read: the instant of a timestamp, and the search for completed ones of a file group.
ghost use Rattle.std.specs.Prelude.{◌≡◌, eqb};
ghost use Rattle.model.specs.State.{completed, newest};
ghost use Rattle.model.specs.Snapshot.{instant_of};
ghost use Rattle.metadata.specs.Search.{newest_above};

use model::instants::{COMPLETED, NONE};

// What a search gives: the newest hit, if there is one, and how many timestamps it looked at.
#[derive(Clone, Copy)]
pub struct Search {
    pub hit: Option<u8>,
    pub looked_at: u8,
}

// The instant of a timestamp, or none: at timestamp 0, and past the timeline's end.
pub fn instant_of(timeline: &[u8], at: u64) -> u8
    ensures { result ≡ instant_of timeline.now at }
{
    if at == 0 {
        return NONE;
    }
    timeline.get(at as usize - 1).copied().unwrap_or(NONE)
}

// Is the instant of a timestamp completed in a file group?
fn completed_in(timeline: &[u8], ts: usize, group: u8) -> bool
    ensures { result ≡ eqb (instant_of timeline.now ts) (completed group) }
{
    let instant = instant_of(timeline, ts as u64);
    instant as u16 == COMPLETED as u16 + group as u16
}

// The search of the check step, for a timestamp above the base that is completed in a file group: from the last down, left at the first hit or
// at the base. Any timeline and numbers may be handed in; with a base at or above the last it looks at none.
pub fn newest_above(timeline: &[u8], group: u8, base: u8, last: u8) -> Search
    ensures { result ≡ newest_above timeline.now group base last }
{
    let mut looked_at: u8 = 0;
    for below in (base as usize..last as usize).rev() {
        let n = below + 1;
        looked_at += 1;
        if completed_in(timeline, n, group) {
            return Search {
                hit: Some(n as u8),
                looked_at,
            };
        }
    }
    Search {
        hit: None,
        looked_at,
    }
}

// The largest completed timestamp of a file group at or below `upto`, or 0: the same search, down to the first timestamp.
pub fn newest_of(timeline: &[u8], group: u8, upto: u8) -> u8
    ensures { result ≡ newest timeline.now group upto }
{
    newest_above(timeline, group, 0, upto).hit.unwrap_or(0)
}

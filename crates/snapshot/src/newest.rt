// The newest file slice of each file group.
ghost use Rattle.snapshot.specs.Inner.{Coded, NewestSlices};

use model::instants::COMPLETED;
use model::limits::{GROUPS, TIMESTAMPS};

// Of each file group, the largest completed timestamp at or below `at`, or 0: one pass down the timeline, left once each group has one. No instant stands
// above the last timestamp.
pub fn newest_of_groups(timeline: [u8; TIMESTAMPS], at: u64) -> [u8; GROUPS]
    requires { Coded timeline }
    ensures { NewestSlices timeline at result }
{
    let mut slices = [0u8; GROUPS];
    let mut missing = GROUPS;
    let upto = at.min(TIMESTAMPS as u64) as usize;
    for n in (0..upto).rev() {
        let instant = timeline[n];
        if instant >= COMPLETED {
            let g = (instant - COMPLETED) as usize;
            if slices[g] == 0 {
                slices[g] = (n + 1) as u8;
                missing -= 1;
                if missing == 0 {
                    return slices;
                }
            }
        }
    }
    slices
}

// The rows that file slices show, counted for each key.
ghost use Rattle.std.specs.Prelude.{◌≡◌, cond, ℕ, ◌≤◌, ◌<◌, ◌+◌, ◌*◌, slice_index};
ghost use Rattle.common.specs.Counting.{sum};
ghost use Rattle.model.specs.Limits.{keys, groups, rows};
ghost use Rattle.shown_rows.specs.Inner.{ForKeys, SliceCounted, Counted};

use crate::places::{Shown, has_slices, row_at};
use model::limits::{GROUPS, KEYS, ROWS};

// Of each key: how many file groups show it, and the lowest of them, or GROUPS. Two arrays, since an array of pairs takes twice the instructions to count.
#[derive(Clone, Copy)]
pub struct KeyCounts {
    pub shows: [u8; KEYS],
    pub lowest: [u8; KEYS],
}

// `g` for true, else GROUPS, which is above every group.
fn group_if(b: bool, g: u8) -> u8
    ensures { result ≡ cond b g groups }
{
    if b { g } else { GROUPS as u8 }
}

impl KeyCounts {
    // Counts the slice of a file group, whose rows stand from a place on. The loop has no exit, so that it runs on whole vectors.
    fn count_slice(&mut self, present: &[bool; ROWS], from: usize, group: u8)
        requires { ForKeys self.old.shows self.old.lowest × (from + keys ≤ rows) × ((k : ℕ) → k < keys → slice_index self.old.shows k ≤ groups) }
        ensures { SliceCounted present.now from group self.old.shows self.old.lowest self.new.shows self.new.lowest }
    {
        for (key, &here) in present[from..from + KEYS].iter().enumerate() {
            self.shows[key] += u8::from(here);
            self.lowest[key] = self.lowest[key].min(group_if(here, group));
        }
    }

    // The number of all rows.
    pub fn total(&self) -> usize
        requires { (k : ℕ) → k < keys → slice_index self.now.shows k ≤ groups }
        ensures { (result ≡ sum keys (λ k. slice_index self.now.shows k)) × (result ≤ groups * keys) }
    {
        let mut total: usize = 0;
        for &shows in self.shows.iter() {
            total += usize::from(shows);
        }
        total
    }
}

// Counts the slices of all file groups.
pub fn count_slices(shown: &Shown) -> KeyCounts
    ensures { Counted shown.now.slices shown.now.present.now groups result.shows result.lowest }
{
    let mut counts = KeyCounts {
        shows: [0; KEYS],
        lowest: [GROUPS as u8; KEYS],
    };
    for group in 0..GROUPS {
        let slice = shown.slices[group];
        if has_slices(slice) {
            let from = row_at(group, slice, 0);
            counts.count_slice(shown.present, from, group as u8);
        }
    }
    counts
}

// Where the rows of a slice stand.
ghost use Rattle.std.specs.Prelude.{◌≡◌, ◌<◌, ◌≤◌, true, false, MatchOption};
ghost use Rattle.model.specs.Limits.{keys, groups, timestamps};
ghost use Rattle.model.specs.State.{row_at};
ghost use Rattle.slices.specs.Slices.{has_slice, place_of, place_number, row_place};

use model::limits::{GROUPS, KEYS, TIMESTAMPS};

// The slice of a file group and a timestamp that are in range.
#[derive(Clone, Copy)]
pub struct Slice {
    pub group: usize,
    pub ts: usize,
    pub ghost in_range: { (group < groups) × ((0 < ts) × (ts ≤ timestamps)) },
}

impl Slice {
    // The slice of a file group and a timestamp, where both are in range.
    pub fn of(group: usize, ts: usize) -> Option<Slice>
        ensures { MatchOption result
            (has_slice group ts ≡ false)
            (λ s. (has_slice group ts ≡ true) × (s.group ≡ group) × (s.ts ≡ ts)) }
    {
        if group < GROUPS && 0 < ts && ts <= TIMESTAMPS {
            Some(Slice { group, ts })
        } else {
            None
        }
    }

    // The place of the row of a key.
    pub fn row(self, key: usize) -> usize
        requires { key < keys }
        ensures { result ≡ row_at self.group self.ts key }
    {
        ((self.ts - 1) * GROUPS + self.group) * KEYS + key
    }
}

// The place of a row, if its group, timestamp and key are in range.
pub fn row_place(group: usize, ts: usize, key: usize) -> Option<usize>
    ensures place { result ≡ place_of group ts key }
    ensures number { place_number result ≡ row_place group ts key }
{
    let slice = Slice::of(group, ts)?;
    if key < KEYS {
        Some(slice.row(key))
    } else {
        None
    }
}

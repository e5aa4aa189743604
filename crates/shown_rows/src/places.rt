// Where the rows of file slices stand, and what stands there.
ghost use Rattle.std.specs.Prelude.{◌≡◌, ◌<◌, slice_index};
ghost use Rattle.model.specs.Limits.{keys, groups, rows};
ghost use Rattle.model.specs.State.{row_at, row_in};
ghost use Rattle.shown_rows.specs.Inner.{HasPlace, SliceTested, has_row};

use model::Value;
use model::limits::{GROUPS, KEYS, ROWS, TIMESTAMPS};

// Where the row of a key stands in the slice of a file group and a timestamp.
pub fn row_at(group: usize, ts: u8, key: usize) -> usize
    requires { HasPlace group ts key }
    ensures { (result ≡ row_at group ts key) × (result < rows) }
{
    ((ts as usize - 1) * GROUPS + group) * KEYS + key
}

// Has a timestamp slices? 0, and one above the last, has none.
pub fn has_slices(ts: u8) -> bool
    ensures { SliceTested result ts }
{
    0 < ts && ts as usize <= TIMESTAMPS
}

// The file slices that are given, and the rows of all slices.
#[derive(Clone, Copy)]
pub struct Shown<'a> {
    pub slices: [u8; GROUPS],
    pub present: &'a [bool; ROWS],
    pub values: &'a [Value; ROWS],
}

impl Shown<'_> {
    // Has the slice of a file group a row of the key?
    pub fn has_row(&self, group: usize, key: usize) -> bool
        requires { (group < groups) × (key < keys) }
        ensures { result ≡ has_row self.now.slices self.now.present.now key group }
    {
        let ts = self.slices[group];
        has_slices(ts) && self.present[row_at(group, ts, key)]
    }

    // The value of the row of a key in the slice of a file group.
    pub fn value_at(&self, group: usize, key: usize) -> Value
        requires { HasPlace group (slice_index self.now.slices group) key }
        ensures { result ≡ row_in 0 self.now.values.now group (slice_index self.now.slices group) key }
    {
        self.values[row_at(group, self.slices[group], key)]
    }
}

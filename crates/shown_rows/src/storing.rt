// The rows that file slices show, stored by rising key and file group, three numbers each.
ghost use Rattle.std.specs.Prelude.{◌≡◌, [], ◌∷◌, ◌≤◌, ◌+◌, length, slice_index};
ghost use Rattle.common.specs.Pasting.{pasted};
ghost use Rattle.model.specs.State.{row_in};
ghost use Rattle.model.specs.Snapshot.{row, numbers};
ghost use Rattle.shown_rows.specs.Inner.{HasPlace, rows_from, key_rows, rows_shown, OthersFit, KeyFits, AllFit, Stores};

use crate::counting::KeyCounts;
use crate::places::Shown;
use common::Word;
use model::limits::{GROUPS, KEYS};

// A lent buffer, and the place behind what is stored in it.
#[derive(Drop)]
pub struct Listing<'b> {
    pub buffer: &'b mut [Word],
    pub at: usize,
}

impl Listing<'_> {
    // Stores the row of a key in the slice of a file group.
    fn store_row(&mut self, shown: &Shown, group: usize, key: usize)
        requires { HasPlace group (slice_index shown.now.slices group) key × (self.old.at + 3 ≤ length self.old.buffer.now) }
        ensures { Stores self.old self.new (numbers (row key (row_in 0 shown.now.values.now group (slice_index shown.now.slices group) key) group ∷ [])) }
    {
        self.buffer[self.at] = key as Word;
        self.buffer[self.at + 1] = shown.value_at(group, key);
        self.buffer[self.at + 2] = group as Word;
        self.at += 3;
    }

    // Stores the rows that the file groups from `from` on show of a key, of which there are so many.
    fn store_others(&mut self, shown: &Shown, key: usize, from: usize, count: u8)
        requires { OthersFit shown.now key from count self.old }
        ensures { Stores self.old self.new (numbers (rows_from shown.now key from)) }
    {
        let mut left = count;
        for group in from..GROUPS {
            if left == 0 {
                return;
            }
            if shown.has_row(group, key) {
                self.store_row(shown, group, key);
                left -= 1;
            }
        }
    }

    // Stores the rows of a key. The first stands in the lowest group that shows the key: only others are looked for.
    fn store_key(&mut self, shown: &Shown, key: usize, count: u8, lowest: u8)
        requires { KeyFits shown.now key count lowest self.old }
        ensures { Stores self.old self.new (numbers (key_rows shown.now key)) }
    {
        if count == 0 {
            return;
        }
        let first = lowest as usize;
        self.store_row(shown, first, key);
        self.store_others(shown, key, first + 1, count - 1);
    }
}

// Stores all rows from the beginning on.
pub fn store(shown: &Shown, counts: &KeyCounts, buffer: &mut [Word])
    requires { AllFit shown.now counts.now (length buffer.old) }
    ensures { buffer.new ≡ pasted buffer.old 0 (numbers (rows_shown shown.now)) }
{
    let mut listing = Listing { buffer, at: 0 };
    for key in 0..KEYS {
        listing.store_key(shown, key, counts.shows[key], counts.lowest[key]);
    }
}

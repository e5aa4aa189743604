// File slices: KEYS rows for each timestamp and file group, in two arrays of the same places, one of bools and one of values.
#![tactic(auto)]

mod copies;
mod places;

pub use copies::{drop_slice, store_slice};
pub use places::row_place;

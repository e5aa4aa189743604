// The metadata of a table, read: the range test of answer 17, and the search of the timeline.
#![tactic(auto)]

mod range;
mod timeline;

pub use range::{actor_in_range, in_range, parts_in_range};
pub use timeline::{Search, instant_of, newest_above, newest_of};

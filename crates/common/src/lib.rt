// What every crate uses: the word, the type of a log's numbers and of a table's values. No functions: specs/ and proofs/ have lists, lent arrays
// and pieces pasted into a buffer.
#![tactic(auto)]

// A number of a log, of WIDTH bits.
pub type Word = u64;

pub const WIDTH: u32 = 64;

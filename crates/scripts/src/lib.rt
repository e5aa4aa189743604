// Stories: scripts of logs that are run on a table, and what the calls then give, printed.
#![tactic(auto)]

mod calls;
mod script;
mod steps;

pub use calls::{choose, clean, instant, point_read, scan, scan_into};
pub use script::{piece, play, run_printed, story};
pub use steps::run_by_steps;

// Trials: tables whose every number is set, and the calls, each tried on a table that stays as it is, with all that it gives printed.
#![tactic(auto)]

mod calls;
mod changes;
mod numbers;
mod setting;

pub use calls::{clean_tried, log_tried, read_tried, scan_tried};
pub use setting::set;

// Runs: the steps of a log or of a list, one after the other, on one table.
#![tactic(auto)]

mod list;
mod log;

ghost use Rattle.std.specs.Prelude.{◌≡◌};
ghost use Rattle.run.specs.Calls.{stop_of_run};

pub use list::run_list;
pub use log::run_log;
use model::Table;

// Why a run stopped: there is no place for the next answer, or its input gave no record.
#[derive(Clone, Copy, PartialEq, Eq, Debug)]
pub enum Stop {
    NoPlace,
    Input(steplog::Stop),
}

// The number of a stop.
impl From<Stop> for u8 {
    ghost from_gives = { λ stop number. number ≡ stop_of_run stop };

    fn from(stop: Stop) -> u8 {
        match stop {
            Stop::NoPlace => 24,
            Stop::Input(stop) => u8::from(stop),
        }
    }
}

// What a run gave: its stop, the number of records taken, the offset of the first record not taken, and the table.
#[derive(Clone, Copy)]
pub struct Ran {
    pub stop: Stop,
    pub count: usize,
    pub offset: usize,
    pub table: Table,
}

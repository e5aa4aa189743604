// The answer numbers of document 01, and 18, 19 and 32 to 34 of document 02; specs/Answers.antt has the same. The answers of steps stay bytes: `rules::act`,
// `notes::note` and `verdicts::carry_out` promise what they do for every number, and a run stores its answers as bytes in a lent buffer.
ghost use Rattle.std.specs.Prelude.{◌≡◌};
ghost use Rattle.model.specs.Refusals.{refusal_number};

pub const TAKEN: u8 = 0;

pub const COMMITTED: u8 = 1;

pub const NOT_INDEXED: u8 = 2;

pub const TOO_LATE: u8 = 3;

pub const OTHER_GROUP: u8 = 4;

pub const GROUP_CHANGED: u8 = 5;

pub const ABORTED: u8 = 6;

pub const NO_WRITER: u8 = 10;

pub const NO_KEY: u8 = 12;

pub const NO_GROUP: u8 = 13;

pub const WRONG_PHASE: u8 = 14;

pub const NO_TIMESTAMP: u8 = 15;

pub const TABLE_LOCKED: u8 = 16;

pub const OUT_OF_RANGE: u8 = 17;

pub const ERASED_VALUE: u8 = 18;

pub const GROUP_LOCKED: u8 = 19;

pub const NO_ROOM: u8 = 31;

pub const BELOW_HORIZON: u8 = 32;

pub const BASE_NEEDED: u8 = 33;

pub const NO_HORIZON: u8 = 34;

// Why a call other than a step gives no result.
#[derive(Clone, Copy, PartialEq, Eq, Debug)]
pub enum Refusal {
    NoWriter,
    NoKey,
    WrongPhase,
    OutOfRange,
    NoRoom,
    BelowHorizon,
    BaseNeeded,
    NoHorizon,
}

// The answer number of a refusal.
impl From<Refusal> for u8 {
    ghost from_gives = { λ refusal n. n ≡ refusal_number refusal };

    fn from(refusal: Refusal) -> u8 {
        match refusal {
            Refusal::NoWriter => NO_WRITER,
            Refusal::NoKey => NO_KEY,
            Refusal::WrongPhase => WRONG_PHASE,
            Refusal::OutOfRange => OUT_OF_RANGE,
            Refusal::NoRoom => NO_ROOM,
            Refusal::BelowHorizon => BELOW_HORIZON,
            Refusal::BaseNeeded => BASE_NEEDED,
            Refusal::NoHorizon => NO_HORIZON,
        }
    }
}

// The rules of a step: the tests of answers 17 and 10, and the action, on the parts of a table. One dispatch for every call that takes steps.
#![tactic(auto)]

mod actions;

ghost use Rattle.verdicts.specs.Fields.{all_fields};
ghost use Rattle.rules.specs.Parts.{Slot, act_on_parts, OutcomeIs};

use common::Word;
use metadata::actor_in_range;
use model::answers::{NO_WRITER, OUT_OF_RANGE};
use model::limits::{GROUPS, KEYS, ROWS, TIMESTAMPS, WRITERS};
use model::{Mode, Step, Value, Writer};
use verdicts::{Acted, carry_out};

// The place of a writer's record: that of its number, or the first for a number past the last.
pub fn slot_of(w: Word) -> usize
    ensures { Slot w result }
{
    if w < WRITERS as Word { w as usize } else { 0 }
}

// One step on the parts of a table, for a caller that keeps a table in locals over many steps: `tested` is the result of the range test that
// the caller made before them, and x the record at the writer's place. Only the actor is tested again.
pub fn act(
    mode: Mode,
    tested: bool,
    x: Writer,
    s: Step,
    last: &mut u8,
    locks: &mut [u8; GROUPS],
    index: &mut [u8; KEYS],
    timeline: &mut [u8; TIMESTAMPS],
    present: &mut [bool; ROWS],
    values: &mut [Value; ROWS],
) -> Acted
    ensures { OutcomeIs result (all_fields last locks index timeline present values) (λ o. act_on_parts mode tested x o s) }
{
    if !tested {
        return Acted {
            answer: OUT_OF_RANGE,
            writer: x,
        };
    }
    if s.writer >= WRITERS as Word {
        return Acted {
            answer: NO_WRITER,
            writer: x,
        };
    }
    if !actor_in_range(*last, x) {
        return Acted {
            answer: OUT_OF_RANGE,
            writer: x,
        };
    }
    let w = s.writer as u8;
    let action = s.action;
    let v = actions::decide(
        mode,
        x,
        w,
        action,
        &mut *last,
        &mut *locks,
        &mut *index,
        &mut *timeline,
        &mut *present,
        &mut *values,
    );
    carry_out(v, x, w, &mut *locks, &mut *index)
}

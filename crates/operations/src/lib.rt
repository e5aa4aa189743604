// An operation, and the first rule of the walk, its start. The numbers are those of document 01, A writer's walk.
#![tactic(auto)]

ghost use Rattle.std.specs.Prelude.{◌≡◌, ◌<◌};
ghost use Rattle.model.specs.Limits.{keys, groups};
ghost use Rattle.model.specs.State.{with_last, with_timeline};
ghost use Rattle.model.specs.Rules as rules;
ghost use Rattle.verdicts.specs.Fields.{changing, together};
ghost use Rattle.verdicts.specs.Verdicts.{Follows};

use common::Word;
use model::answers::{ERASED_VALUE, NO_GROUP, NO_KEY, NO_TIMESTAMP, WRONG_PHASE};
use model::instants::REQUESTED;
use model::limits::{ERASED_WORD, GROUPS, KEYS, TIMESTAMPS};
use model::{Operation, Writer};
use verdicts::Verdict;

// An operation's key.
fn key_of(op: Operation) -> Word
    ensures { result ≡ rules.key_of op }
{
    match op {
        Operation::Put { key, .. } | Operation::Remove { key } => key,
    }
}

// The file group that a put proposes.
fn group_of(op: Operation) -> Word
    ensures { result ≡ rules.group_of op }
{
    match op {
        Operation::Put { group, .. } => group,
        Operation::Remove { .. } => 0,
    }
}

// Is an operation a put of the erased word?
fn puts_erased(op: Operation) -> bool
    ensures { result ≡ rules.puts_erased op }
{
    match op {
        Operation::Put { value, .. } => value == ERASED_WORD,
        Operation::Remove { .. } => false,
    }
}

// A writer that starts an operation under a timestamp.
fn begin(op: Operation, ts: u8) -> Writer
    requires { (rules.key_of op < keys) × (rules.group_of op < groups) }
    ensures { result ≡ rules.begun op ts }
{
    match op {
        Operation::Put { key, value, group } => Writer {
            phase: 1,
            put: true,
            made: false,
            key: key as u8,
            group: group as u8,
            ts,
            base: 0,
            value,
        },
        Operation::Remove { key } => Writer {
            phase: 1,
            put: false,
            made: false,
            key: key as u8,
            group: 0,
            ts,
            base: 0,
            value: 0,
        },
    }
}

// 1. Start: the next timestamp is issued, its instant requested.
#[tactic(auto, unfolding(model::specs::Rules::start))]
pub fn start(x: Writer, op: Operation, last: &mut u8, timeline: &mut [u8; TIMESTAMPS]) -> Verdict
    ensures { Follows x result (together (changing with_last last) (changing with_timeline timeline)) (λ s. rules.start x s op) }
{
    let no_key = key_of(op) >= KEYS as Word;
    let no_group = group_of(op) >= GROUPS as Word;
    let erased = puts_erased(op);
    let busy = x.phase != 0;
    if no_key {
        return Verdict::Refused(NO_KEY);
    }
    if no_group {
        return Verdict::Refused(NO_GROUP);
    }
    if erased {
        return Verdict::Refused(ERASED_VALUE);
    }
    if busy {
        return Verdict::Refused(WRONG_PHASE);
    }
    let issued = *last;
    if issued >= TIMESTAMPS as u8 {
        return Verdict::Refused(NO_TIMESTAMP);
    }
    let slot = issued as usize;
    timeline[slot] = REQUESTED;
    let ts = issued + 1;
    *last = ts;
    Verdict::GoesOn(begin(op, ts))
}

// The rules of the actions but the start, each on the writer's own record and on what it takes of the shared part; and the one dispatch of an action.
// The numbers are those of document 01, A writer's walk.
ghost use Rattle.std.specs.Prelude.{◌≡◌, not, ◌&&◌, ◌<◌, eqb};
ghost use Rattle.model.specs.Limits.{writers};
ghost use Rattle.model.specs.State.{with_last, with_locks, with_index, with_timeline, with_present, with_values};
ghost use Rattle.model.specs.Rules as rules;
ghost use Rattle.verdicts.specs.Fields.{no_field, reading, changing, together, all_fields};
ghost use Rattle.verdicts.specs.Verdicts.{Follows};
ghost use Rattle.rules.specs.Inner.{Bounds};

use locks::{after_index, blocked, may_check, names_other, take_lock};
use metadata::{newest_above, newest_of};
use model::answers::{
    ABORTED, COMMITTED, GROUP_CHANGED, GROUP_LOCKED, NOT_INDEXED, OTHER_GROUP, TABLE_LOCKED,
    TOO_LATE, WRONG_PHASE,
};
use model::instants::{COMPLETED, INFLIGHT};
use model::limits::{GROUPS, KEYS, ROWS, TIMESTAMPS};
use model::{Action, Mode, Value, Writer};
use operations::start;
use slices::store_slice;
use verdicts::{Verdict, moved, with_made};

// 2. Look up: the file group that the index has for the key, or the one that a put proposes; an unindexed remove ends.
#[tactic(auto, unfolding(model::specs::Rules::look_up))]
fn look_up(x: Writer, index: &[u8; KEYS]) -> Verdict
    requires { Bounds x }
    ensures { Follows x result (reading with_index index.now) (rules.look_up x) }
{
    if x.phase != 1 {
        return Verdict::Refused(WRONG_PHASE);
    }
    let key = x.key as usize;
    let entry = index[key];
    if entry != 0 {
        return Verdict::GoesOn(moved(x, 2, entry - 1, x.base));
    }
    if x.put {
        return Verdict::GoesOn(moved(x, 2, x.group, x.base));
    }
    Verdict::Ended(NOT_INDEXED)
}

// 3. Read: the base is the file group's newest completed timestamp, unless that is above the writer's own; the instant is inflight. In a pessimistic
// table writer w takes the group's lock, unless it is another writer's.
#[tactic(auto, unfolding(model::specs::Rules::read_base))]
fn read_base(
    mode: Mode,
    x: Writer,
    w: u8,
    last: u8,
    locks: &mut [u8; GROUPS],
    timeline: &mut [u8; TIMESTAMPS],
) -> Verdict
    requires { (w < writers) × Bounds x }
    ensures { Follows x result (together (reading with_last last) (together (changing with_locks locks) (changing with_timeline timeline))) (rules.read_base mode x w) }
{
    if x.phase != 2 {
        return Verdict::Refused(WRONG_PHASE);
    }
    let locked = blocked(mode, x, w, &*locks);
    let base = newest_of(&*timeline, x.group, last);
    let late = x.ts < base;
    if locked {
        return Verdict::Refused(GROUP_LOCKED);
    }
    if late {
        return Verdict::Ended(TOO_LATE);
    }
    take_lock(mode, x, w + 1, &mut *locks);
    let slot = (x.ts - 1) as usize;
    timeline[slot] = INFLIGHT + x.group;
    Verdict::GoesOn(moved(x, 3, x.group, base))
}

// 4. Write: the slice is stored; no read shows it while the instant is inflight.
#[tactic(auto, unfolding(model::specs::Rules::write_slice), using(crate::proofs::Bounds::slice_stored_lem))]
fn write_slice(x: Writer, present: &mut [bool; ROWS], values: &mut [Value; ROWS]) -> Verdict
    requires { Bounds x }
    ensures { Follows x result (together (changing with_present present) (changing with_values values)) (rules.write_slice x) }
{
    if x.phase != 3 {
        return Verdict::Refused(WRONG_PHASE);
    }
    store_slice(&mut *present, &mut *values, x);
    Verdict::GoesOn(moved(x, 4, x.group, x.base))
}

// Is it a remove, of a key without an index entry?
fn removes_unindexed(put: bool, entry: u8) -> bool
    ensures { result ≡ (not put && eqb entry 0) }
{
    !put && entry == 0
}

// 5. Index: writer w enters its key, unless the key is another group's, or a remove's key no longer indexed. Its flag says whether it has made the entry.
// In an optimistic table it takes the table lock, unless that is another writer's.
#[tactic(auto, unfolding(model::specs::Rules::enter_index))]
fn enter_index(
    mode: Mode,
    x: Writer,
    w: u8,
    locks: &mut [u8; GROUPS],
    index: &mut [u8; KEYS],
) -> Verdict
    requires { (w < writers) × Bounds x }
    ensures { Follows x result (together (changing with_locks locks) (changing with_index index)) (rules.enter_index mode x w) }
{
    if x.phase != 4 {
        return Verdict::Refused(WRONG_PHASE);
    }
    if blocked(mode, x, w, &*locks) {
        return Verdict::Refused(TABLE_LOCKED);
    }
    let key = x.key as usize;
    let entry = index[key];
    if names_other(entry, x.group) {
        return Verdict::Ended(OTHER_GROUP);
    }
    if removes_unindexed(x.put, entry) {
        return Verdict::Ended(NOT_INDEXED);
    }
    index[key] = x.group + 1;
    take_lock(mode, x, w + 1, &mut *locks);
    Verdict::GoesOn(moved(with_made(x, entry == 0), after_index(mode), x.group, x.base))
}

// 6. Check: nothing was completed in the file group above the base.
fn check_conflict(mode: Mode, x: Writer, last: u8, timeline: &[u8; TIMESTAMPS]) -> Verdict
    ensures { Follows x result (together (reading with_last last) (reading with_timeline timeline.now)) (rules.check_conflict mode x) }
{
    if !may_check(mode, x.phase) {
        return Verdict::Refused(WRONG_PHASE);
    }
    match newest_above(timeline, x.group, x.base, last).hit {
        Some(_) => Verdict::Ended(GROUP_CHANGED),
        None => Verdict::GoesOn(moved(x, 6, x.group, x.base)),
    }
}

// 7. Commit: the instant is completed, and readers see its slice.
#[tactic(auto, unfolding(model::specs::Rules::commit))]
fn commit(x: Writer, timeline: &mut [u8; TIMESTAMPS]) -> Verdict
    requires { Bounds x }
    ensures { Follows x result (changing with_timeline timeline) (rules.commit x) }
{
    if x.phase != 6 {
        return Verdict::Refused(WRONG_PHASE);
    }
    let slot = (x.ts - 1) as usize;
    timeline[slot] = COMPLETED + x.group;
    Verdict::Ended(COMMITTED)
}

// 8. Abort, document 01's give up: the operation ends, at any phase but 0.
#[tactic(auto, unfolding(model::specs::Rules::abort))]
fn abort(x: Writer) -> Verdict
    ensures { Follows x result no_field (rules.abort x) }
{
    if x.phase == 0 {
        return Verdict::Refused(WRONG_PHASE);
    }
    Verdict::Ended(ABORTED)
}

// The verdict of the rules on an action of writer w, whose own record is x. A match and no table of closures: each rule is lent other parts of the table.
pub fn decide(
    mode: Mode,
    x: Writer,
    w: u8,
    action: Action,
    last: &mut u8,
    locks: &mut [u8; GROUPS],
    index: &mut [u8; KEYS],
    timeline: &mut [u8; TIMESTAMPS],
    present: &mut [bool; ROWS],
    values: &mut [Value; ROWS],
) -> Verdict
    requires { (w < writers) × Bounds x }
    ensures { Follows x result (all_fields last locks index timeline present values) (λ s. rules.ruled mode x w s action) }
{
    match action {
        Action::Start(op) => start(x, op, &mut *last, &mut *timeline),
        Action::LookUp => look_up(x, &*index),
        Action::Read => read_base(mode, x, w, *last, &mut *locks, &mut *timeline),
        Action::Write => write_slice(x, &mut *present, &mut *values),
        Action::Index => enter_index(mode, x, w, &mut *locks, &mut *index),
        Action::Check => check_conflict(mode, x, *last, &*timeline),
        Action::Commit => commit(x, &mut *timeline),
        Action::Abort => abort(x),
    }
}

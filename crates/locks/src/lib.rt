// The locks of a table, and what depends on its mode: who holds a lock, how a step takes one, how a writer lets go of all.
#![tactic(auto)]

mod modes;

ghost use Rattle.std.specs.Prelude.{◌≡◌};
ghost use Rattle.model.specs.State.{Shared, with_locks};
ghost use Rattle.model.specs.Rules as rules;

use model::{Mode, Writer};
pub use modes::{after_index, may_check};
use modes::{guard, lock_phase};

// Does a lock or an index entry, 0 for none and n + 1 for n, name another than n?
pub fn names_other(entry: u8, n: u8) -> bool
    ensures { result ≡ rules.names_other entry n }
{
    entry.checked_sub(1).is_some_and(|named| named != n)
}

// Does the step that fits a writer's phase take the lock that guards its file group?
fn takes_lock(mode: Mode, x: Writer) -> bool
    ensures { result ≡ rules.takes_lock mode x }
{
    x.phase == lock_phase(mode)
}

// So it does for writer w, and another writer holds the lock? A file group that has no lock is not held.
pub fn blocked(mode: Mode, x: Writer, w: u8, locks: &[u8]) -> bool
    ensures { (s : Shared) → result ≡ rules.blocked mode x w (with_locks s locks.now) }
{
    if !takes_lock(mode, x) {
        return false;
    }
    let Some(held) = locks.get(guard(mode, x.group) as usize) else {
        return false;
    };
    names_other(*held, w)
}

// The lock that the step takes, if it takes one, is set to `lock`, w + 1 for writer w. By its place: `get_mut` says nothing of the other locks.
pub fn take_lock(mode: Mode, x: Writer, lock: u8, locks: &mut [u8])
    ensures { locks.new ≡ rules.locking mode x lock locks.old }
{
    let place = guard(mode, x.group) as usize;
    if takes_lock(mode, x) && place < locks.len() {
        locks[place] = lock;
    }
}

// A lock after writer w has let go of it. In wider numbers and with no `Option`, so that the loop below runs on whole vectors.
fn released(lock: u8, w: u8) -> u8
    ensures { result ≡ rules.released lock w }
{
    if lock as u16 == w as u16 + 1 { 0 } else { lock }
}

// Writer w lets go of each lock that it holds. The loop has no exit, so that it runs on whole vectors.
pub fn free_locks(w: u8, locks: &mut [u8])
    ensures { locks.new ≡ rules.freed w locks.old }
{
    for lock in locks.iter_mut() {
        *lock = released(*lock, w);
    }
}

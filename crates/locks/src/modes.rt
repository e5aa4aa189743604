// What depends on a table's mode. The rules are one text for both modes.
ghost use Rattle.std.specs.Prelude.{◌≡◌};
ghost use Rattle.model.specs.Modes as modes;

use model::Mode;

// The lock that guards a file group: the table lock, which is the first one, or the group's own.
#[tactic(auto, unfolding(model::specs::Modes::guard))]
pub fn guard(mode: Mode, group: u8) -> u8
    ensures { result ≡ modes.guard mode group }
{
    match mode {
        Mode::Optimistic => 0,
        Mode::Pessimistic => group,
    }
}

// The phase whose step takes it: that of the index step, or that of the read step.
#[tactic(auto, unfolding(model::specs::Modes::lock_phase))]
pub fn lock_phase(mode: Mode) -> u8
    ensures { result ≡ modes.lock_phase mode }
{
    match mode {
        Mode::Optimistic => 4,
        Mode::Pessimistic => 2,
    }
}

// The phase after the index step: that of the check, or that of the commit.
#[tactic(auto, unfolding(model::specs::Modes::after_index))]
pub fn after_index(mode: Mode) -> u8
    ensures { result ≡ modes.after_index mode }
{
    match mode {
        Mode::Optimistic => 5,
        Mode::Pessimistic => 6,
    }
}

// May a writer at a phase take the check step? At no phase of a pessimistic table.
#[tactic(auto, unfolding(model::specs::Modes::may_check))]
pub fn may_check(mode: Mode, phase: u8) -> bool
    ensures { result ≡ modes.may_check mode phase }
{
    match mode {
        Mode::Optimistic => phase == 5,
        Mode::Pessimistic => false,
    }
}

// What a rule says of a step, a verdict, and the one place where it is carried out: where an operation ends.
#![tactic(auto)]

mod writer;

ghost use Rattle.std.specs.Prelude.{◌≡◌};
ghost use Rattle.model.specs.State.{with_locks, with_index};
ghost use Rattle.model.specs.Rules as rules;
ghost use Rattle.verdicts.specs.Fields.{changing, together};
ghost use Rattle.verdicts.specs.Verdicts.{CarriesOut};

use locks::free_locks;
use model::Writer;
use model::answers::{COMMITTED, TAKEN};
use model::limits::{GROUPS, KEYS};
pub use writer::{moved, ready, with_made};

// What a rule says of a step: it is refused, or the operation ends, or the writer goes on as the record given.
// Answers are numbers here: `carry_out` promises what any number comes to, also one that no paper names.
#[derive(Clone, Copy)]
pub enum Verdict {
    Refused(u8),
    Ended(u8),
    GoesOn(Writer),
}

// What an action gave: its answer, and the writer's record after it.
// The answer is a number: `carry_out` and `rules::act` promise it as the number that the verdict had.
#[derive(Clone, Copy)]
pub struct Acted {
    pub answer: u8,
    pub writer: Writer,
}

// The index after an operation on a key has ended with an answer: the entry that it made is taken out again, unless it has committed.
// A key past the last has no entry.
fn withdraw(answer: u8, made: bool, key: u8, index: &mut [u8])
    ensures { index.new ≡ rules.withdrawn answer made key index.old }
{
    if answer == COMMITTED {
        return;
    }
    if !made {
        return;
    }
    let slot = key as usize;
    if slot >= index.len() {
        return;
    }
    index[slot] = 0;
}

// A verdict carried out for writer w. Every operation that ends or commits closes here: its writer is ready, each lock that the writer held is free,
// and the index entry that it made withdrawn, unless it has committed.
pub fn carry_out(
    v: Verdict,
    x: Writer,
    w: u8,
    locks: &mut [u8; GROUPS],
    index: &mut [u8; KEYS],
) -> Acted
    ensures { CarriesOut x w v result (together (changing with_locks locks) (changing with_index index)) }
{
    match v {
        Verdict::Refused(n) => Acted {
            answer: n,
            writer: x,
        },
        Verdict::Ended(n) => {
            withdraw(n, x.made, x.key, &mut *index);
            free_locks(w, &mut *locks);
            Acted {
                answer: n,
                writer: ready(),
            }
        }
        Verdict::GoesOn(y) => Acted {
            answer: TAKEN,
            writer: y,
        },
    }
}

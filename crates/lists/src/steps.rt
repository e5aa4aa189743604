// A list of steps, made in a local and lent to `run_list`.
ghost use Rattle.std.specs.Prelude.{◌≡◌};
ghost use Rattle.model.specs.Calls.{state_before};
ghost use Rattle.run.specs.Runs.{of_list, run_of};
ghost use Rattle.run.specs.Calls.{ran};
ghost use Rattle.lists.specs.Steps.{the_steps};

use model::limits::ROWS;
use model::{Action, Operation, Step, Table, Value};
use run::Ran;

// A step of writer 16 and a start of key 32, which are refused, and document 01's example operation.
fn the_steps() -> [Step; 9]
    ensures { result ≡ the_steps }
{
    let remove = Operation::Remove { key: 32 };
    let put = Operation::Put {
        key: 1,
        value: 300,
        group: 2,
    };
    [
        Step {
            writer: 16,
            action: Action::LookUp,
        },
        Step {
            writer: 1,
            action: Action::Start(remove),
        },
        Step {
            writer: 0,
            action: Action::Start(put),
        },
        Step {
            writer: 0,
            action: Action::LookUp,
        },
        Step {
            writer: 0,
            action: Action::Read,
        },
        Step {
            writer: 0,
            action: Action::Write,
        },
        Step {
            writer: 0,
            action: Action::Index,
        },
        Step {
            writer: 0,
            action: Action::Check,
        },
        Step {
            writer: 0,
            action: Action::Commit,
        },
    ]
}

// Runs the list on a table.
pub fn run_steps(
    t: Table,
    present: &mut [bool; ROWS],
    values: &mut [Value; ROWS],
    answers: &mut [u8],
) -> Ran
    ensures { ran result present values answers ≡ run_of (of_list the_steps) (state_before t present values) answers.old }
{
    let steps = the_steps();
    run::run_list(t, present, values, &steps, answers)
}

// A writer's row of noted timestamps.
ghost use Rattle.std.specs.Prelude.{◌≡◌, ◌<◌, get_or};
ghost use Rattle.model.specs.Limits.{writers};
ghost use Rattle.model.specs.Notes.{held_by, row_noted};
ghost use Rattle.notes.specs.Inner.{HeldBy};

use model::Writer;
use model::limits::{NOTED, WRITERS};

// The timestamp that a writer's operation in progress holds, or 0.
fn held_by(x: Writer) -> u8
    ensures { result ≡ held_by x }
{
    if x.phase == 0 { 0 } else { x.ts }
}

// The timestamps that the operations in progress hold, one for each writer.
pub fn held_timestamps(writers: &[Writer; WRITERS]) -> [u8; WRITERS]
    ensures { HeldBy result writers.now }
{
    let mut held = [0u8; WRITERS];
    for (u, x) in writers.iter().enumerate() {
        held[u] = held_by(*x);
    }
    held
}

// The row of writer w is set.
pub fn note_row(w: usize, row: &[u8; WRITERS], noted: &mut [u8; NOTED])
    requires { w < writers }
    ensures { noted.new ≡ row_noted noted.old w (λ u. get_or row.now u 0) writers }
{
    let start = w * WRITERS;
    noted[start..start + WRITERS].copy_from_slice(row);
}

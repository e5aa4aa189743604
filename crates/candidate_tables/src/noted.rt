// Noted timestamps that no steps give. The row of writer 3 begins at 48.
use crate::looking::writing;
use model::Table;
use scripts::choose;
use std::io;
use std::io::Write;

fn not_completed() -> Table {
    let mut t = writing();
    t.noted[48] = 3;
    t.noted[49] = 4;
    t.noted[50] = 7;
    t
}

fn twice() -> Table {
    let mut t = writing();
    t.noted[52] = 2;
    t.noted[63] = 2;
    t
}

// The writer's own timestamp, which is completed already.
fn its_own() -> Table {
    let mut t = writing();
    t.noted[51] = 5;
    t
}

fn above_its_own() -> Table {
    let mut t = writing();
    t.noted[61] = 9;
    t.noted[62] = 6;
    t.noted[63] = 1;
    t
}

fn all_of_these() -> Table {
    let mut t = writing();
    t.noted[48] = 2;
    t.noted[49] = 9;
    t.noted[50] = 3;
    t.noted[51] = 5;
    t.noted[52] = 2;
    t.noted[53] = 1;
    t.noted[62] = 7;
    t.noted[63] = 6;
    t
}

// The numbers right beside the row of writer 3, and the count of writer 4.
fn of_others() -> Table {
    let mut t = writing();
    t.noted[47] = 1;
    t.noted[64] = 1;
    t.counts[4] = 128;
    t
}

pub fn noted(out: &mut impl Write) -> io::Result<()> {
    report::title(out, b"Noted timestamps that no steps give")?;
    choose(out, writing(), b"none: ", 3)?;
    choose(out, not_completed(), b"not completed: ", 3)?;
    choose(out, twice(), b"twice: ", 3)?;
    choose(out, its_own(), b"its own: ", 3)?;
    choose(out, above_its_own(), b"above its own: ", 3)?;
    choose(out, all_of_these(), b"all of these: ", 3)?;
    choose(out, of_others(), b"of other writers: ", 3)
}

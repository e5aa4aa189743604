// Steps on a table, and what they leave noted.
use model::Table;
use set_by_hand::run_bare;
use std::io;
use std::io::Write;

// Runs a log on a table without rows, whole or step by step, and prints what is noted then.
fn run_once(
    out: &mut impl Write,
    t: Table,
    label: &[u8],
    log: &[u8],
    by_steps: bool,
) -> io::Result<Table> {
    let after = run_bare(out, t, label, log, by_steps)?;
    report::noted(out, after)?;
    Ok(after)
}

// Both ways; the table of the second is given.
pub fn stepped(out: &mut impl Write, t: Table, label: &[u8], log: &[u8]) -> io::Result<Table> {
    run_once(out, t, label, log, false)?;
    run_once(out, t, label, log, true)
}

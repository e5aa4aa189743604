// The limits of a table.
use model::limits::Limits;
use std::io;
use std::io::Write;

pub fn limits(out: &mut impl Write) -> io::Result<()> {
    let Limits {
        writers,
        keys,
        groups,
        timestamps,
        erased_word,
        last_phase,
        rows,
        noted,
    } = model::limits::all();
    report::title(out, b"Limits")?;
    writeln!(out, "writers: {writers}")?;
    writeln!(out, "keys: {keys}")?;
    writeln!(out, "groups: {groups}")?;
    writeln!(out, "timestamps: {timestamps}")?;
    writeln!(out, "erased word: {erased_word}")?;
    writeln!(out, "last phase: {last_phase}")?;
    writeln!(out, "rows: {rows}")?;
    writeln!(out, "noted: {noted}")
}

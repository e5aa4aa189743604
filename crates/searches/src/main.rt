// Searches of timelines that are set by hand: that of the check step, with its count; the newest of a file group; single instants.
#![tactic(auto)]

use metadata::{Search, instant_of, newest_above, newest_of};
use model::instants::{COMPLETED, INFLIGHT, NONE, REQUESTED};
use model::limits::TIMESTAMPS;
use std::io;
use std::io::{BufWriter, Write};

// The last timestamp of all, as the papers have it.
const LAST: u8 = 128;

// What a search gave: the hit, or that there is none, and how many timestamps it looked at.
fn print(out: &mut impl Write, found: Search) -> io::Result<()> {
    match found.hit {
        Some(ts) => write!(out, " hit {ts}")?,
        None => write!(out, " no hit")?,
    }
    write!(out, ", looked at {}", found.looked_at)
}

// The search for a file group from a last timestamp down to a base, and the newest of the group up to the last timestamp.
fn search(out: &mut impl Write, timeline: &[u8], group: u8, base: u8, last: u8) -> io::Result<()> {
    write!(out, "group {group} from {last} down to {base}:")?;
    print(out, newest_above(timeline, group, base, last))?;
    writeln!(out, "; newest {}", newest_of(timeline, group, last))
}

// Every base and last timestamp up to 9.
fn search_all(out: &mut impl Write, timeline: &[u8], group: u8) -> io::Result<()> {
    for base in 0..10 {
        for last in 0..10 {
            search(out, timeline, group, base, last)?;
        }
    }
    Ok(())
}

// Searches, each by its file group, base and last timestamp.
fn search_each(out: &mut impl Write, timeline: &[u8], searches: &[(u8, u8, u8)]) -> io::Result<()> {
    for (group, base, last) in searches {
        search(out, timeline, *group, *base, *last)?;
    }
    Ok(())
}

// The number of an instant.
fn instant(out: &mut impl Write, timeline: &[u8], at: u64) -> io::Result<()> {
    writeln!(out, "instant {at}: {}", instant_of(timeline, at))
}

// Of eight instants, 1 and 7 are completed in file group 0, 2, 4 and 6 in group 1, and 5 in group 3. Among the searches are two hits above the
// base, none, one at the base only, a base equal to the last timestamp, and one above it.
fn eight_instants(out: &mut impl Write) -> io::Result<()> {
    let timeline = [
        COMPLETED,
        COMPLETED + 1,
        REQUESTED,
        COMPLETED + 1,
        COMPLETED + 3,
        COMPLETED + 1,
        COMPLETED,
        INFLIGHT + 1,
    ];
    report::title(out, b"Every base and last timestamp up to 9")?;
    search_all(out, &timeline, 0)?;
    search_all(out, &timeline, 1)?;
    search_all(out, &timeline, 2)?;
    search_all(out, &timeline, 3)?;
    report::title(out, b"Last timestamps and bases past the end")?;
    search_each(
        out,
        &timeline,
        &[(1, 5, 255), (1, 6, 255), (2, 0, 255), (0, 0, LAST)],
    )?;
    search_each(
        out,
        &timeline,
        &[
            (1, LAST, LAST + 1),
            (1, 254, 255),
            (1, 255, 255),
            (1, 255, 0),
        ],
    )
}

// The first, the ninth and the last timestamp of all are completed in file group 7.
fn whole_timeline(out: &mut impl Write) -> io::Result<()> {
    let mut timeline = [REQUESTED; TIMESTAMPS];
    timeline[0] = COMPLETED + 7;
    timeline[8] = COMPLETED + 7;
    timeline[TIMESTAMPS - 1] = COMPLETED + 7;
    report::title(out, b"As many instants as a table has")?;
    search_each(
        out,
        &timeline,
        &[(7, 0, LAST), (7, 9, LAST), (7, 9, 255), (7, LAST, LAST)],
    )?;
    search_each(
        out,
        &timeline,
        &[(7, 0, LAST - 1), (7, 9, LAST - 1), (7, 0, 8), (6, 0, LAST)],
    )
}

// A completed instant of file group 245 is 255, the largest byte; of groups 246 and 255 it is more than a byte holds, 256 and 265.
fn no_such_groups(out: &mut impl Write) -> io::Result<()> {
    let timeline = [255, NONE, INFLIGHT + 7];
    report::title(out, b"File groups that do not exist")?;
    search_each(
        out,
        &timeline,
        &[
            (244, 0, 3),
            (245, 0, 3),
            (245, 1, 3),
            (246, 0, 3),
            (255, 0, 3),
        ],
    )
}

fn instants(out: &mut impl Write) -> io::Result<()> {
    let timeline = [COMPLETED + 7, REQUESTED, 255];
    report::title(out, b"The instants of a short timeline")?;
    for at in [0, 1, 2, 3, 4, 257, 4294967297, u64::MAX] {
        instant(out, &timeline, at)?;
    }
    Ok(())
}

fn empty_timeline(out: &mut impl Write) -> io::Result<()> {
    report::title(out, b"An empty timeline")?;
    search_each(out, &[], &[(0, 0, 3), (0, 2, 5)])?;
    instant(out, &[], 1)
}

fn main(rt: HostRuntime) -> io::Result<()> {
    let mut out = BufWriter::new(rt.alloc(), io::writer(&rt))?;
    eight_instants(&mut out)?;
    whole_timeline(&mut out)?;
    no_such_groups(&mut out)?;
    instants(&mut out)?;
    empty_timeline(&mut out)?;
    out.flush()
}

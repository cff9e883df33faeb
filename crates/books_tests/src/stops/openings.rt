//! A store that stops while an older file is opened: the file is the old one or the new one, and is
//! opened again to the same office.

use crate::older::offices::{Older, older_offices};
use crate::shown::ALL_TABLES;
use crate::stops::disks::{Ended, Kept, Room, SOUND, Stopping, closed, kept_tables, life, made};
use crate::stops::scripts::{Script, script_of};
use books::OpenFault;
use std::alloc::Global;
use std::process::Abort;
use std::test::Fail;

// A file of an older format, what its tables show, and what is asked once it was opened.
#[derive(Drop)]
struct OldFile {
    kept: Kept,
    tables: String,
    opened: &'static str,
    later: Script,
}

// Its rows stand in its log, or in its database.
fn old_file(alloc: Global, older: &Older, in_log: bool) -> Result<OldFile, Fail> {
    let made = made(alloc, older.parts)?;
    let kept = if in_log { made } else { closed(alloc, &made)? };
    Ok(OldFile {
        tables: kept_tables(alloc, &kept)?,
        kept,
        opened: older.opened,
        later: script_of(alloc, older.later)?,
    })
}

// On sound disks the office is opened, and gives the replies that are wanted.
fn goes_on(rt: &(impl Abort + AllocGlobal), old: &OldFile, kept: &Kept) -> Result<(), Fail> {
    let again = life(rt.alloc(), kept, SOUND, &[])?;
    assert!(rt; again.replies.is_some(), "not opened on sound disks");
    let tables = kept_tables(rt.alloc(), &again.kept)?;
    assert!(rt;
        tables.as_str().strip_prefix(ALL_TABLES) == Some(old.opened),
        "{tables}"
    );
    let ended = life(rt.alloc(), &again.kept, SOUND, &old.later.sent)?;
    let replies = ended.replies.ok_or("not opened again")?;
    let right = old.later.answered(rt.alloc(), &replies)?;
    assert_eq!(rt; right, Some(old.later.sent.len()), "{replies:?}");
    Ok(())
}

// What an opening leaves, the old file or the new one, and whether it failed; else it is the new
// one.
fn left_by(
    rt: &(impl Abort + AllocGlobal),
    old: &OldFile,
    stopping: Stopping,
    calls: u64,
) -> Result<(Kept, bool), Fail> {
    let Ended {
        replies,
        fault,
        kept,
        ..
    } = life(rt.alloc(), &old.kept, stopping.after(calls), &[])?;
    assert!(rt; fault.is_none_or(|fault| fault == OpenFault::Store));
    let tables = kept_tables(rt.alloc(), &kept)?;
    let is_new = tables.as_str().strip_prefix(ALL_TABLES) == Some(old.opened);
    let is_old = replies.is_none() && tables.as_str() == old.tables.as_str();
    assert!(rt; is_new || is_old, "{calls} calls: {tables}");
    Ok((kept, replies.is_none()))
}

// Each number of calls, up to the first at which no call fails. What two openings leave alike is
// gone on with once.
fn failures(
    rt: &(impl Abort + AllocGlobal),
    old: &OldFile,
    stopping: Stopping,
) -> Result<u64, Fail> {
    let mut before: Option<Kept> = None;
    for calls in 0..2000 {
        let (kept, has_failed) = left_by(rt, old, stopping, calls)?;
        if before.as_ref() != Some(&kept) {
            goes_on(rt, old, &kept)?;
        }
        if !has_failed {
            return Ok(calls);
        }
        before = Some(kept);
    }
    Err("each number of calls was too small".into())
}

// A format, whether its rows stand in the log, which disk stops, and how many openings fail at the
// least: how often an opening of the first format writes depends on how its totals are gathered.
static OPENINGS: [(usize, bool, Stopping, u64); 18] = [
    (1, false, Stopping::Log(Room::Ample), 20),
    (1, false, Stopping::Log(Room::Little), 20),
    (1, false, Stopping::Database(Room::Little), 10),
    (1, true, Stopping::Log(Room::Ample), 60),
    (1, true, Stopping::Log(Room::Little), 60),
    (1, true, Stopping::Database(Room::Little), 10),
    (2, false, Stopping::Log(Room::Ample), 34),
    (2, false, Stopping::Log(Room::Little), 42),
    (2, false, Stopping::Database(Room::Little), 61),
    (2, true, Stopping::Log(Room::Ample), 235),
    (2, true, Stopping::Log(Room::Little), 267),
    (2, true, Stopping::Database(Room::Little), 27),
    (3, false, Stopping::Log(Room::Ample), 34),
    (3, false, Stopping::Log(Room::Little), 37),
    (3, false, Stopping::Database(Room::Little), 67),
    (3, true, Stopping::Log(Room::Ample), 255),
    (3, true, Stopping::Log(Room::Little), 284),
    (3, true, Stopping::Database(Room::Little), 29),
];

fn openings() -> &'static [(usize, bool, Stopping, u64)] {
    &OPENINGS
}

// All openings of a file of a format.
fn opens(rt: &(impl Abort + AllocGlobal), wanted: usize) -> Result<(), Fail> {
    for (format, in_log, stopping, failed) in openings() {
        if *format == wanted {
            let older = older_offices()
                .get(format.saturating_sub(1))
                .ok_or("no format")?;
            let old = old_file(rt.alloc(), older, *in_log)?;
            let found = failures(rt, &old, *stopping)?;
            assert!(rt; *failed <= found, "{found} openings failed");
        }
    }
    Ok(())
}

#[test]
fn an_opening_of_format_1_that_stops(rt: HostRuntime) -> Result<(), Fail> {
    opens(&rt, 1)
}

#[test]
fn an_opening_of_format_2_that_stops(rt: HostRuntime) -> Result<(), Fail> {
    opens(&rt, 2)
}

#[test]
fn an_opening_of_format_3_that_stops(rt: HostRuntime) -> Result<(), Fail> {
    opens(&rt, 3)
}

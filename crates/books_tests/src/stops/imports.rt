//! A store that stops at each of its calls: all rows of an import are stored or none, and the
//! import that comes again adds the others.

use crate::stops::disks::{Ended, Kept, Room, SOUND, Stopping, count, life, nothing};
use office_rules::{Answer, Refusal, Reply, Stamped};
use office_testing::values::{FIRST_DAY, flat_with_meters, import, stamped};
use std::alloc::Global;
use std::process::Abort;
use std::test::Fail;

// How many meters the import has that a stop meets.
const METERS: u32 = 30;

// A tariff with its meters.
const ROWS: u32 = METERS + 1;

fn sent(alloc: Global) -> Result<Vec<Stamped>, Fail> {
    let request = import(flat_with_meters(alloc, METERS)?)?;
    Ok(vec![in alloc; stamped(FIRST_DAY, 0, request)?]?)
}

// How many rows the reply to the import says to be new, and `None` where the store failed.
fn new_rows(ended: &Ended) -> Result<Option<u32>, Fail> {
    let replies: &[Reply] = match &ended.replies {
        Some(replies) => replies.as_slice(),
        None => &[],
    };
    match replies.first() {
        Some(Ok(Answer::Imported(new))) => Ok(Some(*new)),
        Some(Err(Refusal::Store)) | None => Ok(None),
        _ => Ok(None.ok_or("another reply")?),
    }
}

// How many meters and tariffs were kept.
fn rows_kept(alloc: Global, kept: &Kept) -> Result<i64, Fail> {
    let sql = "SELECT (SELECT count(*) FROM meters) + (SELECT count(*) FROM tariffs)";
    count(alloc, kept, sql)
}

// A second import adds what the first did not leave, all rows or none.
fn comes_again(
    rt: &(impl Abort + AllocGlobal),
    sent: &[Stamped],
    kept: &Kept,
    is_told: bool,
) -> Result<(), Fail> {
    let stored = rows_kept(rt.alloc(), kept)?;
    let is_there = stored == i64::from(ROWS);
    assert!(rt; is_there || (stored == 0 && !is_told), "{stored} rows");
    let second = life(rt.alloc(), kept, SOUND, sent)?;
    let others = if is_there { 0 } else { ROWS };
    assert_eq!(rt; new_rows(&second)?, Some(others));
    assert_eq!(rt; rows_kept(rt.alloc(), &second.kept)?, i64::from(ROWS));
    Ok(())
}

// Each number of calls, up to the first at which no call fails. What two imports leave alike is
// gone on with once.
fn failures(rt: &(impl Abort + AllocGlobal), stopping: Stopping) -> Result<u64, Fail> {
    let (alloc, sent) = (rt.alloc(), sent(rt.alloc())?);
    let empty = life(alloc, &nothing(alloc), SOUND, &[])?.kept;
    let mut before: Option<Kept> = None;
    for calls in 0..2000 {
        let first = life(alloc, &empty, stopping.after(calls), &sent)?;
        let told = new_rows(&first)?;
        assert!(rt;
            told.is_none_or(|new| new == ROWS),
            "{told:?} rows, {calls} calls"
        );
        if told.is_some() || before.as_ref() != Some(&first.kept) {
            comes_again(rt, &sent, &first.kept, told.is_some())?;
        }
        if told.is_some() {
            return Ok(calls);
        }
        before = Some(first.kept);
    }
    Err("each number of calls was too small".into())
}

// Which disk stops, and how many imports fail.
static IMPORTS: [(Stopping, u64); 3] = [
    (Stopping::Log(Room::Ample), 159),
    (Stopping::Log(Room::Little), 252),
    (Stopping::Database(Room::Little), 31),
];

fn imports() -> &'static [(Stopping, u64)] {
    &IMPORTS
}

#[test]
fn an_import_that_stops(rt: HostRuntime) -> Result<(), Fail> {
    for (stopping, failed) in imports() {
        assert_eq!(rt; failures(&rt, *stopping)?, *failed);
    }
    Ok(())
}

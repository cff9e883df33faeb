//! Files that are no office's: they are refused, and have the bytes that they had.

use office_testing::both::Both;
use office_testing::in_file::{Life, live_and_change, live_and_stop, remove};
use sqlite::Alter;
use std::fs;
use std::process::Termination;
use std::test::Fail;
use sts_token::{BlockTransform, Plain};
use vend_core::Lists;

const PATH: &str = "refused.db";

// No database, and longer than the head of one.
const TEXT: &str =
    "This is no database, and has more than a hundred bytes, so that nobody takes it \
    for an empty file or for the beginning of one.";

// What makes an office's file that of no office.
const SPOILING: [&str; 3] = [
    "DROP TABLE shift_totals;",
    "UPDATE about SET format = 5;",
    "CREATE INDEX stray ON sales (moment);",
];

/// A life in which nothing is asked.
#[derive(Clone, Copy, Drop)]
struct Idle;

impl<T: BlockTransform> Life<T, ()> for Idle {
    fn live<S: Alter>(self, _both: &mut Both<S, T>) -> Result<(), Fail> {
        Ok(())
    }
}

/// Has each of these files refused, and fails where one is opened, or has changed.
pub(crate) fn refuse(rt: &HostRuntime) -> Result<usize, Fail> {
    remove(rt.alloc(), rt, PATH)?;
    fs::write(rt, PATH, TEXT)?;
    refuse_one(rt)?;
    for sql in SPOILING {
        remove(rt.alloc(), rt, PATH)?;
        let lists = Lists::new(rt.alloc(), Plain);
        let _ = live_and_change(rt, PATH, Plain, lists, Idle, sql)?;
        refuse_one(rt)?;
    }
    remove(rt.alloc(), rt, PATH)?;
    Ok(SPOILING.len().saturating_add(1))
}

fn refuse_one(rt: &HostRuntime) -> Result<(), Fail> {
    let before = fs::read(rt, PATH)?;
    let lists = Lists::new(rt.alloc(), Plain);
    match live_and_stop(rt, PATH, Plain, lists, Idle) {
        Ok(_) => return Err("a file of no office was opened".into()),
        // A failure cannot be let go, so it is told on standard error.
        Err(refusal) => {
            let _ = Err::<(), Fail>(refusal).report(rt);
        }
    }
    if fs::read(rt, PATH)? != before {
        return Err("a file that was refused has changed".into());
    }
    Ok(())
}

//! A store that fails for good: what was answered stands, and nobody is served after it.
use crate::folder;
use crate::lapses::ports::Trouble;
use crate::lapses::{
    CALLS, LISTENING, MESSAGES, OPEN_AGAIN, Outcome, QUIET, STOPPED, calls_fail, count_in,
    quiet_after, served,
};
use disk_testing::{Faults, NO_FAULTS};
use std::test::Fail;
use vend_commands::CommandEnd;

const FAILED_REPLY: &str = "HTTP/1.1 503 Service Unavailable\r\nContent-Type: application/json\r\n\
    Content-Length: 30\r\nDate: Wed, 01 Jan 2014 00:00:30 GMT\r\n\r\n{\"error\":\"Store\",\"refusal\":16}";

// The calls of the opening fail: nobody is served.
fn is_unopened(ran: &Outcome) -> bool {
    ran.end == CommandEnd::Refused
        && ran.errors.as_str() == "open 3 Store\n"
        && ran.replies.is_empty()
}

// The file cannot be opened again after a connection that is not the last.
fn is_lost(ran: &Outcome, connections: usize) -> bool {
    ran.end == CommandEnd::Refused
        && ran.errors.as_str().strip_prefix(STOPPED) == Some("open 3 Store\n")
        && connections < MESSAGES.len()
}

// All connections are served, and this is told.
fn is_served(ran: &Outcome, connections: usize, told: &str) -> bool {
    ran.end == CommandEnd::Done && ran.errors.as_str() == told && connections == MESSAGES.len()
}

// Which way a run went.
#[derive(Clone, Copy, PartialEq, Eq)]
enum Way {
    /// Nobody met a failure.
    Whole,
    /// It was not opened, or the last connection met the failure.
    Failed,
    /// The office could not be opened again.
    Lost,
}

// A reply that tells of the failure is the last one, and those before it are the first of a run
// without a failure.
fn way_of(ran: &Outcome, whole: &str) -> Result<Way, Fail> {
    if is_unopened(ran) {
        return Ok(Way::Failed);
    }
    let replies = ran.replies.as_str();
    let connections = count_in(replies, "HTTP/1.1 ");
    if replies == whole && is_served(ran, connections, LISTENING) {
        return Ok(Way::Whole);
    }
    let answered = replies.strip_suffix(FAILED_REPLY);
    if answered.is_some_and(|before| whole.starts_with(before)) {
        if is_served(ran, connections, STOPPED) {
            return Ok(Way::Failed);
        }
        if is_lost(ran, connections) {
            return Ok(Way::Lost);
        }
    }
    Err(Fail::new(format_args!("{ran:?}")))
}

// Of one file each call but a sync fails from one on, or each sync.
fn failing_from(is_log: bool, is_sync: bool, before: u64) -> Trouble {
    let faults = Faults {
        before,
        failing: u64::MAX,
    };
    if is_sync {
        return Trouble {
            is_log,
            calls: NO_FAULTS,
            syncs: faults,
        };
    }
    Trouble {
        is_log,
        calls: faults,
        syncs: NO_FAULTS,
    }
}

// Answers how often the office could not be opened again.
fn sweep(rt: &HostRuntime, is_log: bool, is_sync: bool) -> Result<u64, Fail> {
    let path = folder::enter(rt)?;
    let whole = served(rt, calls_fail(is_log, 0, 0), usize::MAX)?.replies;
    let mut lost: u64 = 0;
    let mut quiet: u64 = 0;
    for before in 0..CALLS {
        let ran = served(rt, failing_from(is_log, is_sync, before), usize::MAX)?;
        let way = way_of(&ran, whole.as_str())?;
        quiet = quiet_after(quiet, way == Way::Whole);
        if way == Way::Lost {
            lost = lost.saturating_add(1);
        }
        if quiet == QUIET {
            break;
        }
    }
    folder::remove(rt, path)?;
    if quiet == QUIET {
        return Ok(lost);
    }
    Err(Fail::new("there are calls past the last run"))
}

#[test]
fn the_log_fails_for_good(rt: HostRuntime) -> Result<(), Fail> {
    assert!(rt; sweep(&rt, true, false)? > 0);
    Ok(())
}

// What a request writes goes to the log, so none need meet this.
#[test]
fn the_database_file_fails_for_good(rt: HostRuntime) -> Result<(), Fail> {
    let _ = sweep(&rt, false, false)?;
    Ok(())
}

#[test]
fn syncs_of_the_log_fail(rt: HostRuntime) -> Result<(), Fail> {
    assert!(rt; sweep(&rt, true, true)? > 0);
    Ok(())
}

#[test]
fn syncs_of_the_database_file_fail(rt: HostRuntime) -> Result<(), Fail> {
    let _ = sweep(&rt, false, true)?;
    Ok(())
}

// The line that says where it listens is cut after each of its bytes.
#[test]
fn nobody_is_served_where_it_is_not_told(rt: HostRuntime) -> Result<(), Fail> {
    let path = folder::enter(&rt)?;
    for room in 0..LISTENING.len() {
        let ran = served(&rt, calls_fail(true, 0, 0), room)?;
        let told = LISTENING.get(..room).unwrap_or("no text ends here");
        if ran.end != CommandEnd::Refused
            || ran.errors.as_str() != told
            || !ran.replies.is_empty()
        {
            return Err(Fail::new(format_args!("{room}: {ran:?}")));
        }
    }
    let ran = served(&rt, calls_fail(true, 0, 0), LISTENING.len())?;
    assert!(rt; is_served(&ran, count_in(ran.replies.as_str(), "HTTP/1.1 "), LISTENING));
    folder::remove(&rt, path)
}

// Where a call of the log fails once, in a request: the place of the first such call.
fn first_stop(rt: &HostRuntime) -> Result<u64, Fail> {
    for before in 0..CALLS {
        if served(rt, calls_fail(true, before, 1), usize::MAX)?
            .errors
            .as_str()
            == OPEN_AGAIN
        {
            return Ok(before);
        }
    }
    Err(Fail::new("no request met a failure"))
}

// The lines that tell of a stop and of its end are cut after each of their bytes: the desk serves
// on as if they had been written.
#[test]
fn it_serves_on_where_a_stop_is_not_told(rt: HostRuntime) -> Result<(), Fail> {
    let path = folder::enter(&rt)?;
    let trouble = calls_fail(true, first_stop(&rt)?, 1);
    let whole = served(&rt, trouble, usize::MAX)?.replies;
    for room in LISTENING.len()..=OPEN_AGAIN.len() {
        let ran = served(&rt, trouble, room)?;
        let told = OPEN_AGAIN.get(..room).unwrap_or("no text ends here");
        let connections = count_in(ran.replies.as_str(), "HTTP/1.1 ");
        if !is_served(&ran, connections, told) || ran.replies.as_str() != whole.as_str() {
            return Err(Fail::new(format_args!("{room}: {ran:?}")));
        }
    }
    folder::remove(&rt, path)
}

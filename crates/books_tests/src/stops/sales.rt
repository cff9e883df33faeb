//! A store that stops at each of its calls, in two lives one after another: nothing that was
//! acknowledged is lost, and what comes again is there once.

use crate::older::tables::FIRST_TABLES;
use crate::shown::ALL_TABLES;
use crate::stops::disks::{
    Ended, Kept, Room, SOUND, Stop, Stopping, closed, kept_tables, life, made, nothing,
};
use crate::stops::scripts::{Script, script_of};
use books::OpenFault;
use std::alloc::Global;
use std::process::Abort;
use std::test::Fail;

// What is sent in each life, and what the tables have at the end.
#[derive(Clone, Copy)]
struct Sending {
    name: &'static str,
    // The statements that make the file of the first life; none, and there is no file.
    begin: &'static [&'static str],
    script: &'static str,
    end: &'static str,
}

// A tariff, a meter, a shift, and three orders.
const THREE_SALES: Sending = Sending {
    name: "three sales",
    begin: &[],
    script: "
> 1388534430 add-tariff flat :100
  done
> 1388534430 add-meter 12345678903 2014 flat 0000000000000000
  done
> 1388534430 open-shift ann
  opened 1
  refused 3 ShiftOpen
> 1388534430 sell ann A-1 12345678903 10
  sold 1 1388534430 1 ann A-1 12345678903 2014 2 1 1 10 10 00072057602627981690
> 1388534430 sell ann A-2 12345678903 10
  sold 2 1388534430 1 ann A-2 12345678903 2014 3 2 1 10 10 00144115200960832043
> 1388534430 sell ann A-3 12345678903 10
  sold 3 1388534430 1 ann A-3 12345678903 2014 4 3 1 10 10 00216172799293731483
",
    end: "\
about 1 4
tariff flat
step flat 0 - 100
meter 12345678903 2014 flat 0000000000000000
shift 1 ann 1388534430 -
sale 1 1388534430 252 1 ann A-1 12345678903 2014 2 1 1 10 10 00072057602627981690
sale 2 1388534430 252 1 ann A-2 12345678903 2014 3 2 1 10 10 00144115200960832043
sale 3 1388534430 252 1 ann A-3 12345678903 2014 4 3 1 10 10 00216172799293731483
last 12345678903 2014 4
month 12345678903 252 3
totals 1 3 3 30
base 12345678903 2014
",
};

const FIRST_ROWS: &str = "INSERT INTO about VALUES (1, 1); \
    INSERT INTO tariffs VALUES ('flat'); \
    INSERT INTO tariff_steps VALUES ('flat', 0, NULL, 100); \
    INSERT INTO meters VALUES ('12345678903', 2014, 'flat', '0000000000000000'), \
    ('10000000009', 1993, 'flat', '0000000000000000'); \
    INSERT INTO shifts VALUES (1, 'ann', 1388534430, NULL); \
    INSERT INTO sales VALUES (1, 1388534430, 252, 1, 'ann', 'A-1', '12345678903', 2014, 2, 1, 1, \
    10, 10, '00072057602627981690')";

// The same in a file of format 1 that has the first of the sales, with a meter that is moved, and
// with steps of a later day for two tariffs, of which one comes with an import.
const LATER: Sending = Sending {
    name: "later requests",
    begin: &[FIRST_TABLES, FIRST_ROWS],
    script: "
> 1388534430 add-tariff flat :100
  done
> 1388534430 add-meter 12345678903 2014 flat 0000000000000000
  done
> 1388534430 import t,night,:50 m,79927398713,1993,night,0000000000000000 s,night,2014-02-01,:60
  imported 3
  imported 0
> 1388534430 open-shift ann
  refused 3 ShiftOpen
> 1388534430 sell ann A-1 12345678903 10
  sold 1 1388534430 1 ann A-1 12345678903 2014 2 1 1 10 10 00072057602627981690
> 1388534430 sell ann A-2 12345678903 10
  sold 2 1388534430 1 ann A-2 12345678903 2014 3 2 1 10 10 00144115200960832043
> 1388534430 sell ann A-3 12345678903 10
  sold 3 1388534430 1 ann A-3 12345678903 2014 4 3 1 10 10 00216172799293731483
> 1388534430 sell ann B-1 10000000009 10
  sold 4 1388534430 1 ann B-1 10000000009 1993 11044800 4 1 10 10 00335667430942643346
> 1388534430 move-base 10000000009 2014
  done
> 1388534430 sell ann B-2 10000000009 10
  sold 5 1388534430 1 ann B-2 10000000009 2014 2 5 1 10 10 00360287978779661691
> 1388534430 add-steps flat 2014-02-01 :200
  done
> 1391212800 sell ann C-1 12345678903 100
  sold 6 1391212800 1 ann C-1 12345678903 2014 44640 6 5 100 100 00432537291568026619
> 1391212800 sell ann C-2 79927398713 60
  sold 7 1391212800 1 ann C-2 79927398713 1993 11089440 7 10 60 60 00552031940397165256
",
    end: "\
about 1 4
tariff flat
tariff night
step flat 0 - 100
step night 0 - 50
meter 10000000009 2014 flat 0000000000000000
meter 12345678903 2014 flat 0000000000000000
meter 79927398713 1993 night 0000000000000000
shift 1 ann 1388534430 -
sale 1 1388534430 252 1 ann A-1 12345678903 2014 2 1 1 10 10 00072057602627981690
sale 2 1388534430 252 1 ann A-2 12345678903 2014 3 2 1 10 10 00144115200960832043
sale 3 1388534430 252 1 ann A-3 12345678903 2014 4 3 1 10 10 00216172799293731483
sale 4 1388534430 252 1 ann B-1 10000000009 1993 11044800 4 1 10 10 00335667430942643346
sale 5 1388534430 252 1 ann B-2 10000000009 2014 2 5 1 10 10 00360287978779661691
sale 6 1391212800 253 1 ann C-1 12345678903 2014 44640 6 5 100 100 00432537291568026619
sale 7 1391212800 253 1 ann C-2 79927398713 1993 11089440 7 10 60 60 00552031940397165256
last 10000000009 1993 11044800
last 10000000009 2014 2
last 12345678903 2014 44640
last 79927398713 1993 11089440
month 10000000009 252 2
month 12345678903 252 3
month 12345678903 253 5
month 79927398713 253 10
totals 1 7 20 210
base 10000000009 1993
base 10000000009 2014
base 12345678903 2014
base 79927398713 1993
from flat 7701 0 - 200
from night 7701 0 - 60
",
};

// A mistake in a price of a later day, and one in a key, each taken back before the sales that they
// would have spoilt.
const CORRECTED: Sending = Sending {
    name: "corrections",
    begin: &[],
    script: "
> 1388534430 add-tariff flat :100
  done
> 1388534430 add-meter 12345678903 2014 flat 0000000000000000
  done
  refused 6 Differs
> 1388534430 add-steps flat 2014-02-01 :2000
  done
  refused 6 Differs
> 1388534430 withdraw-steps flat 2014-02-01
  withdrawn 1
  refused 19 DayPast
> 1388534430 add-steps flat 2014-02-01 :200
  done
> 1388534430 set-key 12345678903 0000000000000002
  done
> 1388534430 open-shift ann
  opened 1
  refused 3 ShiftOpen
> 1388534430 sell ann A-1 12345678903 10
  sold 1 1388534430 1 ann A-1 12345678903 2014 2 1 1 10 10 00072057602627981690
> 1391212800 sell ann C-1 12345678903 100
  sold 2 1391212800 1 ann C-1 12345678903 2014 44640 2 5 100 100 00144306915416283130
",
    end: "\
about 1 4
tariff flat
step flat 0 - 100
meter 12345678903 2014 flat 0000000000000002
shift 1 ann 1388534430 -
sale 1 1388534430 252 1 ann A-1 12345678903 2014 2 1 1 10 10 00072057602627981690
sale 2 1391212800 253 1 ann C-1 12345678903 2014 44640 2 5 100 100 00144306915416283130
last 12345678903 2014 44640
month 12345678903 252 1
month 12345678903 253 5
totals 1 2 6 110
base 12345678903 2014
from flat 7701 0 - 200
",
};

// The file of the first life.
fn begun(alloc: Global, begin: &[&str]) -> Result<Kept, Fail> {
    if begin.is_empty() {
        return Ok(nothing(alloc));
    }
    closed(alloc, &made(alloc, begin)?)
}

// A script over disks of which one stops.
#[derive(Clone, Copy)]
struct Sweep {
    sending: Sending,
    stopping: Stopping,
    // Past ten calls, a second life stops at one of so many.
    stride: u64,
    // How many pairs of a first and a second life there are.
    pairs: u64,
}

// What came of a script.
#[derive(Clone, Copy, PartialEq)]
enum Outcome {
    NotOpened,
    Failed,
    Granted,
}

// What a life left.
#[derive(Drop, PartialEq)]
struct Left {
    kept: Kept,
    outcome: Outcome,
}

// The script in a life on disks that stop.
fn left_by(
    rt: &(impl Abort + AllocGlobal),
    script: &Script,
    kept: &Kept,
    stop: Stop,
) -> Result<Left, Fail> {
    let Ended {
        replies,
        fault,
        is_stopped,
        kept,
    } = life(rt.alloc(), kept, stop, &script.sent)?;
    let Some(replies) = &replies else {
        assert!(rt; fault.is_none_or(|fault| fault == OpenFault::Store));
        let outcome = Outcome::NotOpened;
        return Ok(Left { kept, outcome });
    };
    let right = script.answered(rt.alloc(), replies)?;
    assert!(rt; right.is_some(), "{replies:?}");
    let is_granted = right == Some(script.sent.len());
    assert_eq!(rt; is_stopped, !is_granted, "{replies:?}");
    let outcome = if is_granted {
        Outcome::Granted
    } else {
        Outcome::Failed
    };
    Ok(Left { kept, outcome })
}

// The script in a life on sound disks, in which each request is granted.
fn finished(rt: &(impl Abort + AllocGlobal), script: &Script, kept: &Kept) -> Result<Kept, Fail> {
    let Ended { replies, kept, .. } = life(rt.alloc(), kept, SOUND, &script.sent)?;
    let replies = replies.ok_or("not opened on sound disks")?;
    let right = script.answered(rt.alloc(), &replies)?;
    assert_eq!(rt; right, Some(script.sent.len()), "{replies:?}");
    Ok(kept)
}

// An office that was not opened is opened on sound disks then, and sent the script.
fn opened_at_last(
    rt: &(impl Abort + AllocGlobal),
    script: &Script,
    left: Left,
) -> Result<Kept, Fail> {
    let Left { kept, outcome } = left;
    if outcome == Outcome::NotOpened {
        return finished(rt, script, &kept);
    }
    Ok(kept)
}

// The third life, on sound disks, after a second one that left this.
fn third_life(
    rt: &(impl Abort + AllocGlobal),
    script: &Script,
    left: &Left,
    end: &str,
) -> Result<(), Fail> {
    let mut kept = finished(rt, script, &left.kept)?;
    if left.outcome == Outcome::NotOpened {
        kept = finished(rt, script, &kept)?;
    }
    let tables = kept_tables(rt.alloc(), &kept)?;
    let rows = tables.as_str().strip_prefix(ALL_TABLES);
    assert!(rt; rows == Some(end), "{tables}");
    Ok(())
}

// The numbers of calls after which a second life stops.
fn second_calls(place: u64, stride: u64) -> u64 {
    let above_ten = place.saturating_sub(10);
    place
        .min(10)
        .saturating_add(above_ten.saturating_mul(stride))
}

// After a first life, each second one, up to the first in which no call fails, and a third that is
// sound. Where two second lives, one after the other, leave the same, the third is one. How many
// second lives there were.
fn second_lives(
    rt: &(impl Abort + AllocGlobal),
    sweep: &Sweep,
    script: &Script,
    kept: &Kept,
) -> Result<u64, Fail> {
    let mut before: Option<Left> = None;
    for place in 0..1000 {
        let calls = second_calls(place, sweep.stride);
        let left = left_by(rt, script, kept, sweep.stopping.after(calls))?;
        if before.as_ref() != Some(&left) {
            third_life(rt, script, &left, sweep.sending.end)?;
        }
        if place >= 10 && left.outcome == Outcome::Granted {
            return Ok(place.saturating_add(1));
        }
        before = Some(left);
    }
    Err("each number of calls of a second life was too small".into())
}

// Each number of calls in the first life, up to the first at which none fails. How many pairs there
// were.
fn first_lives(rt: &(impl Abort + AllocGlobal), sweep: &Sweep) -> Result<u64, Fail> {
    let script = script_of(rt.alloc(), sweep.sending.script)?;
    let begun = begun(rt.alloc(), sweep.sending.begin)?;
    let mut pairs = 0u64;
    for calls in 0..1000 {
        let left = left_by(rt, &script, &begun, sweep.stopping.after(calls))?;
        let is_granted = left.outcome == Outcome::Granted;
        let kept = opened_at_last(rt, &script, left)?;
        pairs = pairs.saturating_add(second_lives(rt, sweep, &script, &kept)?);
        if is_granted {
            return Ok(pairs);
        }
    }
    Err("each number of calls of a first life was too small".into())
}

const SALES: Sweep = Sweep {
    sending: THREE_SALES,
    stopping: Stopping::Log(Room::Ample),
    stride: 1,
    pairs: 13173,
};

static SALES_BY_LOG: [Sweep; 1] = [SALES];

static SALES_BY_CROWDED_LOG: [Sweep; 1] = [Sweep {
    stopping: Stopping::Log(Room::Little),
    stride: 9,
    pairs: 4461,
    ..SALES
}];

static SALES_BY_DATABASE: [Sweep; 2] = [
    Sweep {
        stopping: Stopping::Database(Room::Ample),
        pairs: 165,
        ..SALES
    },
    Sweep {
        stopping: Stopping::Database(Room::Little),
        stride: 3,
        pairs: 1132,
        ..SALES
    },
];

const LATER_REQUESTS: Sweep = Sweep {
    sending: LATER,
    stopping: Stopping::Log(Room::Ample),
    stride: 9,
    pairs: 3426,
};

static LATER_BY_LOG: [Sweep; 1] = [LATER_REQUESTS];

static LATER_BY_CROWDED_LOG: [Sweep; 1] = [Sweep {
    stopping: Stopping::Log(Room::Little),
    stride: 25,
    pairs: 3879,
    ..LATER_REQUESTS
}];

static LATER_BY_DATABASE: [Sweep; 2] = [
    Sweep {
        stopping: Stopping::Database(Room::Ample),
        pairs: 517,
        ..LATER_REQUESTS
    },
    Sweep {
        stopping: Stopping::Database(Room::Little),
        pairs: 1608,
        ..LATER_REQUESTS
    },
];

const CORRECTIONS: Sweep = Sweep {
    sending: CORRECTED,
    stopping: Stopping::Log(Room::Ample),
    stride: 9,
    pairs: 2654,
};

static CORRECTIONS_BY_LOG: [Sweep; 1] = [CORRECTIONS];

static CORRECTIONS_BY_DATABASE: [Sweep; 1] = [Sweep {
    stopping: Stopping::Database(Room::Ample),
    pairs: 165,
    ..CORRECTIONS
}];

// These have no clause, so that no proof reads the sweeps.
fn sales_by_log() -> &'static [Sweep] {
    &SALES_BY_LOG
}

fn sales_by_crowded_log() -> &'static [Sweep] {
    &SALES_BY_CROWDED_LOG
}

fn sales_by_database() -> &'static [Sweep] {
    &SALES_BY_DATABASE
}

fn later_by_log() -> &'static [Sweep] {
    &LATER_BY_LOG
}

fn later_by_crowded_log() -> &'static [Sweep] {
    &LATER_BY_CROWDED_LOG
}

fn later_by_database() -> &'static [Sweep] {
    &LATER_BY_DATABASE
}

fn corrections_by_log() -> &'static [Sweep] {
    &CORRECTIONS_BY_LOG
}

fn corrections_by_database() -> &'static [Sweep] {
    &CORRECTIONS_BY_DATABASE
}

fn all(rt: &(impl Abort + AllocGlobal + Print), sweeps: &[Sweep]) -> Result<(), Fail> {
    for sweep in sweeps {
        let pairs = first_lives(rt, sweep)?;
        let (sent, stops) = (sweep.sending.name, sweep.stopping.name());
        println!(rt; "{pairs} pairs of lives, {sent}: {stops}")?;
        assert_eq!(rt; pairs, sweep.pairs);
    }
    Ok(())
}

#[test]
fn sales_that_the_log_stops(rt: HostRuntime) -> Result<(), Fail> {
    all(&rt, sales_by_log())
}

#[test]
fn sales_that_a_crowded_log_stops(rt: HostRuntime) -> Result<(), Fail> {
    all(&rt, sales_by_crowded_log())
}

#[test]
fn sales_that_the_database_stops(rt: HostRuntime) -> Result<(), Fail> {
    all(&rt, sales_by_database())
}

#[test]
fn later_requests_that_the_log_stops(rt: HostRuntime) -> Result<(), Fail> {
    all(&rt, later_by_log())
}

#[test]
fn later_requests_that_a_crowded_log_stops(rt: HostRuntime) -> Result<(), Fail> {
    all(&rt, later_by_crowded_log())
}

#[test]
fn later_requests_that_the_database_stops(rt: HostRuntime) -> Result<(), Fail> {
    all(&rt, later_by_database())
}

#[test]
fn corrections_that_the_log_stops(rt: HostRuntime) -> Result<(), Fail> {
    all(&rt, corrections_by_log())
}

#[test]
fn corrections_that_the_database_stops(rt: HostRuntime) -> Result<(), Fail> {
    all(&rt, corrections_by_database())
}

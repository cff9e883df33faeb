//! A store that fails within `serve`: that it stopped is told, and that it is open again; the next
//! connection is served, and a repeated ref is one sale. Or it fails for good: then nobody is
//! served after it.
mod look_ups;
mod lost;
mod ports;

use crate::folder;
use crate::lapses::ports::{LapsingOffice, NoTexts, ScriptedMachine, Texts, Trouble, Unseen};
use crate::support::{Failing, words_of};
use desk::Script;
use disk_testing::{Faults, NO_FAULTS};
use std::fs;
use std::test::Fail;
use vend_commands::{CommandEnd, MachineLoopback, Ports, Watched, run_over};

// Each message comes on two connections, as from a till that asks again.
const MESSAGES: &[&str] = &[
    TARIFF, TARIFF, METER, METER, SHIFT, SHIFT, SALE, SALE, SHOWN, SHOWN,
];

const TARIFF: &str = "POST /tariffs HTTP/1.1\r\nHost: d\r\nContent-Length: 30\r\n\r\n\
    {\"name\":\"flat\",\"steps\":\":100\"}";

const METER: &str = "POST /meters HTTP/1.1\r\nHost: d\r\nContent-Length: 76\r\n\r\n\
    {\"base\":2014,\"key\":\"0000000000000000\",\"meter\":\"12345678903\",\"tariff\":\"flat\"}";

const SHIFT: &str = "POST /shifts HTTP/1.1\r\nHost: d\r\nContent-Length: 18\r\n\r\n\
    {\"operator\":\"ann\"}";

const SALE: &str = "POST /sales HTTP/1.1\r\nHost: d\r\nContent-Length: 64\r\n\r\n\
    {\"meter\":\"12345678903\",\"operator\":\"ann\",\"ref\":\"A-1\",\"tender\":10}";

const SHOWN: &str = "GET /shifts/1 HTTP/1.1\r\nHost: d\r\n\r\n";

const SOLD: &str = "{\"base\":2014,\"change\":0,\"meter\":\"12345678903\",\"moment\":1388534430,\
    \"number\":1,\"operator\":\"ann\",\"price\":10,\"ref\":\"A-1\",\"shift\":1,\"tender\":10,\
    \"tenths\":1,\"tid\":2,\"token\":\"00072057602627981690\"}";

const FAILED: &str = "{\"error\":\"Store\",\"refusal\":16}";

const TOTALS: &str = "\nSALES 1\nTENTHS 1\nCASH 10\n";

/// What came of a run: its end, what it told, and all that its connections were sent.
#[derive(Debug, Drop)]
struct Outcome {
    end: CommandEnd,
    errors: String,
    replies: String,
}

// What is told once the door listens, once a connection left the books stopped, and once they are
// open again.
const LISTENING: &str = "listening 127.0.0.1:80\n";

const STOPPED: &str = "listening 127.0.0.1:80\nstopped 16 Store\n";

const OPEN_AGAIN: &str = "listening 127.0.0.1:80\nstopped 16 Store\nopen\n";

// The messages are served by a new office with some trouble.
fn served(rt: &HostRuntime, trouble: Trouble, errors_room: usize) -> Result<Outcome, Fail> {
    served_all(rt, trouble, MESSAGES, errors_room)
}

// So are these, on a connection each. The error output takes so many bytes.
fn served_all(
    rt: &HostRuntime,
    trouble: Trouble,
    messages: &[&str],
    errors_room: usize,
) -> Result<Outcome, Fail> {
    fs::write(rt, "replies", "")?;
    let ports: Ports<ScriptedMachine<LapsingOffice>> = Ports {
        office: LapsingOffice {
            alloc: rt.alloc(),
            trouble,
        },
        texts: NoTexts,
        clock: Script::new(1388534430, &[]),
        door: Texts {
            rt,
            texts: messages,
            next: 0,
        },
        loopback: MachineLoopback::new(rt, rt),
        progress: Unseen,
    };
    let line = format!(in rt.alloc();
        "serve --file office.db --listen 127.0.0.1:80 --connections {}",
        messages.len()
    )?;
    let mut out = Vec::new(rt.alloc());
    let mut err = Failing {
        taken: Vec::new(rt.alloc()),
        room: errors_room,
    };
    let ran = run_over(
        rt.alloc(),
        ports,
        &words_of(rt, line.as_str())?,
        &mut Watched::new(&mut out),
        &mut Watched::new(&mut err),
    );
    if !out.is_empty() {
        return Err(Fail::new("an output"));
    }
    Ok(Outcome {
        end: ran.end,
        errors: String::from_utf8(err.taken)?,
        replies: fs::read_to_string(rt, "replies")?,
    })
}

// Some calls of one file fail, and no sync.
fn calls_fail(is_log: bool, before: u64, failing: u64) -> Trouble {
    Trouble {
        is_log,
        calls: Faults { before, failing },
        syncs: NO_FAULTS,
    }
}

// How often a text stands in another.
fn count_in(text: &str, part: &str) -> usize {
    (0..text.len())
        .filter(|at| text.get(*at..).is_some_and(|rest| rest.starts_with(part)))
        .count()
}

// What met a failure.
#[derive(Clone, Copy, Debug, PartialEq, Eq)]
enum Met {
    Nobody,
    Opening,
    Request,
}

// Whether this is told of books by these replies, of which some are this refusal: the books open
// again before the next connection where a read failed, and behind the next write where one did.
fn is_told(errors: &str, replies: &str, failed: usize) -> bool {
    if failed == 0 {
        errors == LISTENING
    } else if replies.ends_with(FAILED) {
        errors == STOPPED
    } else {
        // Nothing is written behind a sale whose failed write stood after all.
        errors == OPEN_AGAIN || (count_in(replies, SOLD) == 1 && errors == STOPPED)
    }
}

// What met the failure. Each request that was asked for again has its one right reply.
fn met_by(ran: &Outcome) -> Result<Met, Fail> {
    let replies = ran.replies.as_str();
    if ran.end == CommandEnd::Refused
        && ran.errors.as_str() == "open 3 Store\n"
        && replies.is_empty()
    {
        return Ok(Met::Opening);
    }
    let failed = count_in(replies, FAILED);
    let sold = count_in(replies, SOLD);
    let shown = count_in(replies, TOTALS);
    let is_right = ran.end == CommandEnd::Done
        && is_told(ran.errors.as_str(), replies, failed)
        && failed <= 1
        && sold >= 1
        && shown >= 1
        && sold.saturating_add(shown).saturating_add(failed) >= 4
        && count_in(replies, "HTTP/1.1 ") == MESSAGES.len()
        && !replies.contains("\"number\":2");
    if is_right {
        return Ok(if failed == 1 {
            Met::Request
        } else {
            Met::Nobody
        });
    }
    Err(Fail::new(format_args!("{ran:?}")))
}

// How many runs there are at the most: more than a run makes calls of one file.
const CALLS: u64 = 600;

// After so many runs in a row without a failure no later call is made.
const QUIET: u64 = 50;

// Each call of one file fails once, in a run of its own. Answers how many requests met that; of the
// database file, how many openings.
fn sweep(rt: &HostRuntime, is_log: bool) -> Result<u64, Fail> {
    let path = folder::enter(rt)?;
    let mut failures: u64 = 0;
    let mut quiet: u64 = 0;
    for before in 0..CALLS {
        let ran = served(rt, calls_fail(is_log, before, 1), usize::MAX)?;
        let met = met_by(&ran)?;
        quiet = quiet_after(quiet, met == Met::Nobody);
        // A request reads and writes the log alone. Of the database file an opening meets the
        // failure.
        let sought = if is_log { Met::Request } else { Met::Opening };
        if met == sought {
            failures = failures.saturating_add(1);
        }
        if quiet == QUIET {
            break;
        }
    }
    folder::remove(rt, path)?;
    if quiet == QUIET {
        return Ok(failures);
    }
    Err(Fail::new("there are calls past the last run"))
}

// How many runs in a row met no failure, with one more.
fn quiet_after(quiet: u64, is_whole: bool) -> u64 {
    if is_whole { quiet.saturating_add(1) } else { 0 }
}

#[test]
fn without_a_failure(rt: HostRuntime) -> Result<(), Fail> {
    let path = folder::enter(&rt)?;
    let ran = served(&rt, calls_fail(true, 0, 0), usize::MAX)?;
    assert_eq!(rt; met_by(&ran)?, Met::Nobody);
    assert_eq!(rt; count_in(ran.replies.as_str(), SOLD), 2);
    assert_eq!(rt; count_in(ran.replies.as_str(), TOTALS), 2);
    folder::remove(&rt, path)
}

#[test]
fn many_connections(rt: HostRuntime) -> Result<(), Fail> {
    let path = folder::enter(&rt)?;
    let mut messages = Vec::from_slice(rt.alloc(), &[TARIFF, METER, SHIFT, SALE])?;
    for _ in 0..1_000 {
        messages.push(SHOWN)?;
    }
    let ran = served_all(&rt, calls_fail(true, 0, 0), &messages, usize::MAX)?;
    assert_eq!(rt; ran.end, CommandEnd::Done);
    assert_eq!(rt; ran.errors.as_str(), LISTENING);
    assert_eq!(rt; count_in(ran.replies.as_str(), SOLD), 1);
    assert_eq!(rt; count_in(ran.replies.as_str(), TOTALS), 1_000);
    folder::remove(&rt, path)
}

#[test]
fn a_call_of_the_log_fails(rt: HostRuntime) -> Result<(), Fail> {
    assert!(rt; sweep(&rt, true)? > 0);
    Ok(())
}

#[test]
fn a_call_of_the_database_file_fails(rt: HostRuntime) -> Result<(), Fail> {
    assert!(rt; sweep(&rt, false)? > 0);
    Ok(())
}

//! Look-ups and lists in a file in which nothing was written, at the moment that is given or else
//! at the clock's; and where a call of it fails once, which is told, and nothing is printed.
use crate::lapses::ports::{LapsingOffice, NoTexts, ScriptedMachine, Texts, Trouble, Unseen};
use crate::lapses::{CALLS, QUIET, calls_fail, quiet_after};
use crate::support::words_of;
use desk::Script;
use std::test::Fail;
use vend_commands::{CommandEnd, MachineLoopback, Ports, Watched, run_over};

// A new office has nothing of these.
const LOOK_UPS: [(&str, &str); 5] = [
    (
        "show --file office.db meter --meter 12345678903",
        "refused 4 NoMeter\n",
    ),
    (
        "show --file office.db last --meter 12345678903",
        "refused 4 NoMeter\n",
    ),
    (
        "show --file office.db sale --operator ann --ref A-1",
        "refused 12 NoSale\n",
    ),
    (
        "quote --file office.db --meter 12345678903 10",
        "refused 4 NoMeter\n",
    ),
    (
        "offer --file office.db --meter 12345678903 10",
        "refused 4 NoMeter\n",
    ),
];

// Its lists have no members.
const LISTS: [(&str, &str); 7] = [
    ("list --file office.db tariffs", "tariff\tfrom\tsteps\n"),
    (
        "list --file office.db --after flat tariffs",
        "tariff\tfrom\tsteps\n",
    ),
    ("list --file office.db meters", "meter\tbase\ttariff\n"),
    (
        "list --file office.db shifts",
        "shift\toperator\topened\tclosed\tsales\ttenths\tcash\n",
    ),
    (
        "list --file office.db --after 7 sales",
        "number,moment,shift,operator,ref,meter,base,tid,tenths,price,tender,change,token\n",
    ),
    ("list --file office.db --json tariffs", "{\"tariffs\":[]}\n"),
    ("list --file office.db --json sales", "{\"sales\":[]}\n"),
];

const MOMENT: i64 = 1388534430;

// What a command left on its output and its error output.
#[derive(Drop)]
struct Left {
    out: String,
    err: String,
}

// What a look-up tells with this clock; it prints nothing, and ends as refused.
fn told(rt: &HostRuntime, trouble: Trouble, line: &str, clock: i64) -> Result<String, Fail> {
    let (end, left) = ran(rt, trouble, line, clock)?;
    if end != CommandEnd::Refused || !left.out.is_empty() {
        return Err(Fail::new(format_args!("{line}: {end:?}")));
    }
    Ok(left.err)
}

// What a list prints; or what it tells where it ends as refused, and it prints nothing.
fn listed(rt: &HostRuntime, trouble: Trouble, line: &str, clock: i64) -> Result<String, Fail> {
    let (end, left) = ran(rt, trouble, line, clock)?;
    match end {
        CommandEnd::Done if left.err.is_empty() => Ok(left.out),
        CommandEnd::Refused if left.out.is_empty() => Ok(left.err),
        _ => Err(Fail::new(format_args!("{line}: {end:?}"))),
    }
}

// How a command ends with this clock, and what it leaves.
fn ran(
    rt: &HostRuntime,
    trouble: Trouble,
    line: &str,
    clock: i64,
) -> Result<(CommandEnd, Left), Fail> {
    let ports: Ports<ScriptedMachine<LapsingOffice>> = Ports {
        office: LapsingOffice {
            alloc: rt.alloc(),
            trouble,
        },
        texts: NoTexts,
        clock: Script::new(clock, &[]),
        door: Texts {
            rt,
            texts: &[],
            next: 0,
        },
        loopback: MachineLoopback::new(rt, rt),
        progress: Unseen,
    };
    let mut out = Vec::new(rt.alloc());
    let mut err = Vec::new(rt.alloc());
    let ran = run_over(
        rt.alloc(),
        ports,
        &words_of(rt, line)?,
        &mut Watched::new(&mut out),
        &mut Watched::new(&mut err),
    );
    let left = Left {
        out: String::from_utf8(out)?,
        err: String::from_utf8(err)?,
    };
    Ok((ran.end, left))
}

#[test]
fn the_clock_decides_where_no_moment_is_given(rt: HostRuntime) -> Result<(), Fail> {
    let trouble = calls_fail(true, 0, 0);
    for (line, found) in LOOK_UPS {
        assert_eq!(rt; told(&rt, trouble, line, MOMENT)?.as_str(), found);
        // A clock outside the moments: a moment that is given needs none.
        assert_eq!(rt; told(&rt, trouble, line, -1)?.as_str(), "refused clock\n");
        let given = format!(in rt.alloc(); "{line} --at {MOMENT}")?;
        assert_eq!(rt; told(&rt, trouble, given.as_str(), -1)?.as_str(), found);
    }
    Ok(())
}

#[test]
fn lists_of_a_new_office(rt: HostRuntime) -> Result<(), Fail> {
    let trouble = calls_fail(true, 0, 0);
    for (line, header) in LISTS {
        assert_eq!(rt; listed(&rt, trouble, line, MOMENT)?.as_str(), header);
        assert_eq!(rt; listed(&rt, trouble, line, -1)?.as_str(), "refused clock\n");
    }
    Ok(())
}

// Each call of one file fails once, in a run of its own: the opening or the look-up tells it.
// Answers how often.
fn failures_of(rt: &HostRuntime, is_log: bool, line: &str, found: &str) -> Result<u64, Fail> {
    let mut failures: u64 = 0;
    let mut quiet: u64 = 0;
    for before in 0..CALLS {
        let trouble = calls_fail(is_log, before, 1);
        let said = if line.starts_with("list ") {
            listed(rt, trouble, line, MOMENT)?
        } else {
            told(rt, trouble, line, MOMENT)?
        };
        let is_whole = said.as_str() == found;
        if !is_whole {
            if said.as_str() != "open 3 Store\n" && said.as_str() != "refused 16 Store\n" {
                return Err(Fail::new(format_args!("{line}: {said}")));
            }
            failures = failures.saturating_add(1);
        }
        quiet = quiet_after(quiet, is_whole);
        if quiet == QUIET {
            return Ok(failures);
        }
    }
    Err(Fail::new("there are calls past the last run"))
}

fn sweep(rt: &HostRuntime, is_log: bool) -> Result<u64, Fail> {
    let mut failures: u64 = 0;
    for (line, found) in LOOK_UPS {
        failures = failures.saturating_add(failures_of(rt, is_log, line, found)?);
    }
    for (line, found) in LISTS {
        failures = failures.saturating_add(failures_of(rt, is_log, line, found)?);
    }
    Ok(failures)
}

#[test]
fn a_call_of_a_file_fails(rt: HostRuntime) -> Result<(), Fail> {
    // Nothing was written in the database file: its length tells that, and the log is left alone.
    assert_eq!(rt; sweep(&rt, true)?, 0);
    assert!(rt; sweep(&rt, false)? > 0);
    Ok(())
}

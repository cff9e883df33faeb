//! Vends credit tokens for prepayment electricity meters: reads the words of a command line and
//! prints. What each does is in `vend_commands`, and what is said of a refusal at a terminal in
//! `terminal_advice`.
#![tactic(auto)]

use command_line::{BadWords, Syncs, syncs_asked};
use sqlite::{Start, Unknown, Wary};
use std::io::IsTerminal;
use std::process::ExitCode;
use std::rt::Env;
use std::{env, io};
use terminal_advice::{Here, Unseen, refuse_advised, run_advised};
use vend_commands::Computer;

fn main(rt: HostRuntime) -> ExitCode {
    let status = match words_given(&rt) {
        Ok(words) => run_given(&rt, &words),
        Err(fault) => refuse_words(&rt, fault),
    };
    ExitCode::from(status)
}

// The words after the program's own name.
fn words_given<R: Env + AllocGlobal>(rt: &R) -> Result<Vec<String>, BadWords> {
    let all = env::args(rt).map_err(unreadable)?;
    all.skip(1)
        .collect(rt.alloc())
        .map_err(|_| BadWords::Memory)
}

// A word that is no text is no command's.
fn unreadable(error: io::Error) -> BadWords {
    if error.kind() == io::ErrorKind::InvalidData {
        BadWords::Value
    } else {
        BadWords::Memory
    }
}

fn run_given(rt: &HostRuntime, given: &[String]) -> u8 {
    let words: Result<Vec<&str>, _> = given.iter().map(|word| word.as_str()).collect(rt.alloc());
    let Ok(words) = words else {
        return refuse_words(rt, BadWords::Memory);
    };
    match syncs_asked(rt.alloc(), &words) {
        // Of what was written and not synced a stop may leave any bytes. So the promise needs no
        // disk that finishes each sector it begins; for that a commit syncs twice.
        Some(Syncs::Twice) | None => run_from(rt, Wary, &words),
        // It leaves each byte as it was before or as it was written.
        Some(Syncs::Once) => run_from(rt, Unknown, &words),
    }
}

// Runs on this computer. `start` stands for what the office's file holds.
fn run_from<B: Start>(rt: &HostRuntime, start: B, words: &[&str]) -> u8 {
    let here = Here::new(rt);
    let ports = Computer::ports(rt, rt, start);
    let (mut out, err) = (rt.stdout(), rt.stderr());
    let at_terminal = err.is_terminal();
    let (status, _) = run_advised::<Unseen, _, _, _, _>(
        rt.alloc(),
        ports,
        words,
        &here,
        at_terminal,
        &mut out,
        err,
    );
    status
}

fn refuse_words(rt: &HostRuntime, fault: BadWords) -> u8 {
    let mut err = rt.stderr();
    let at_terminal = err.is_terminal();
    refuse_advised(fault, at_terminal, &mut err)
}

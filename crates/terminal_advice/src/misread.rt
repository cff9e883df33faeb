//! Which value of a command is outside its rule.

use crate::advice::Advice;
use crate::value_rules::broken;
use clap::ArgMatches;
use std::alloc::Global;
use tariff::{Steps, StepsFault};

/// Which value it is of the command of this name, or which option the command lacks.
pub(crate) fn misread(alloc: Global, name: &str, said: &ArgMatches) -> Option<Advice> {
    match misread_option(said) {
        Some(advice) => Some(advice),
        None => match misread_kind(name, said) {
            Some(advice) => Some(advice),
            None => misread_list(alloc, said),
        },
    }
}

// An option that means the same with each command.
fn misread_option(said: &ArgMatches) -> Option<Advice> {
    let options: [&str; 19] = [
        "transform",
        "at",
        "wait",
        "desk",
        "listen",
        "operator",
        "ref",
        "meter",
        "base",
        "key",
        "tariff",
        "from",
        "tender",
        "number",
        "act",
        "prior",
        "sync",
        "connections",
        "kind",
    ];
    for option in options.iter() {
        if *option == "kind" && said.get_str("csv").is_some() {
            continue;
        }
        if let Some(word) = said.get_str(option)
            && let Some(advice) = broken(option, word)
        {
            return Some(advice);
        }
    }
    None
}

// What is imported, shown or listed, and what that needs.
fn misread_kind(name: &str, said: &ArgMatches) -> Option<Advice> {
    let what = said.get_str("what");
    if let Some(rows) = said.get_str("kind")
        && said.get_str("csv").is_some()
    {
        return broken("rows", rows);
    }
    if name == "show" {
        return misread_shown(what?, said);
    }
    if name == "list" {
        return misread_listed(what?, said);
    }
    None
}

// What `show` is given.
fn misread_shown(what: &str, said: &ArgMatches) -> Option<Advice> {
    match what {
        "meter" => lacking(said, "meter", Advice::LacksMeter),
        "last" => match said.get_str("json") {
            Some("true") => Some(Advice::WordJson),
            _ => lacking(said, "meter", Advice::LacksMeter),
        },
        "sale" => match lacking(said, "operator", Advice::LacksOrder) {
            Some(advice) => Some(advice),
            None => lacking(said, "ref", Advice::LacksOrder),
        },
        _ => Some(Advice::WordShown),
    }
}

// An option that is needed.
fn lacking(said: &ArgMatches, option: &str, advice: Advice) -> Option<Advice> {
    match said.get_str(option) {
        Some(_) => None,
        None => Some(advice),
    }
}

// What `list` is given.
fn misread_listed(what: &str, said: &ArgMatches) -> Option<Advice> {
    match what {
        "tariffs" => broken("after tariff", said.get_str("after")?),
        "meters" => broken("after meter", said.get_str("after")?),
        "shifts" | "sales" => broken("after number", said.get_str("after")?),
        _ => Some(Advice::WordListed),
    }
}

// Steps, or amounts.
fn misread_list(alloc: Global, said: &ArgMatches) -> Option<Advice> {
    if let Some(steps) = said.get_str("steps") {
        return match Steps::of_text(alloc, steps.as_bytes()) {
            Ok(_) => None,
            Err(StepsFault::Memory) => None,
            Err(_) => Some(Advice::WordSteps),
        };
    }
    for amount in said.get_strs("amounts")? {
        if let Some(advice) = broken("amount", amount) {
            return Some(advice);
        }
    }
    None
}

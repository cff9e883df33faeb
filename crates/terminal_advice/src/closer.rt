//! The closest advice for a line.
ghost use Rattle.terminal_advice.specs.Advised.{IsFormOf};

use crate::advice::Advice;
use crate::lines::cause_in;
use crate::look::Look;
use crate::misread::misread;
use clap::ArgMatches;
use command_line::{meant, parse};
use office_rules::Refusal;
use std::alloc::Global;

/// The advice for a line, or a closer form of it, by the arguments and a look at the computer.
pub(crate) fn closer<L: Look>(
    alloc: Global,
    words: &[&str],
    look: &L,
    line: &[u8],
    general: Advice,
) -> Advice
    ensures { IsFormOf result general }
{
    match seen(alloc, words, look, line, general) {
        Some(advice) => form_of(advice, general),
        None => general,
    }
}

// The advice, if it is a closer form of the general one.
fn form_of(advice: Advice, general: Advice) -> Advice
    ensures { IsFormOf result general }
{
    match general {
        Advice::Value => match advice.general() {
            Advice::Value => advice,
            _ => general,
        },
        Advice::RowField => match advice.general() {
            Advice::RowField => advice,
            _ => general,
        },
        Advice::File => match advice.general() {
            Advice::File => advice,
            _ => general,
        },
        Advice::OpenStore => match advice.general() {
            Advice::OpenStore => advice,
            _ => general,
        },
        Advice::Net => match advice.general() {
            Advice::Net => advice,
            _ => general,
        },
        Advice::Refused(Refusal::Store) => match advice.general() {
            Advice::Refused(Refusal::Store) => advice,
            _ => general,
        },
        _ => general,
    }
}

// What the arguments and the computer say.
fn seen<L: Look>(
    alloc: Global,
    words: &[&str],
    look: &L,
    line: &[u8],
    general: Advice,
) -> Option<Advice> {
    let Ok(words) = meant(alloc, words) else {
        return None;
    };
    let Ok(matches) = parse(alloc, &words) else {
        return None;
    };
    let (name, said) = matches.subcommand()?;
    match general {
        Advice::Value => misread(alloc, name, said),
        Advice::RowField => column(said.get_str("kind")?, cause_in(line)),
        Advice::File => file_fault(look, said),
        Advice::OpenStore => look.office(said.get_str("file")?),
        Advice::Net => net_fault(look, said),
        Advice::Refused(Refusal::Store) => look.room(said.get_str("file")?),
        _ => None,
    }
}

// The column of the field that is named, in a file of this kind.
fn column(kind: &str, cause: &[u8]) -> Option<Advice> {
    let field = *cause.last()?;
    match kind {
        "meters" => match field {
            b'1' => Some(Advice::ColumnMeter),
            b'2' => Some(Advice::ColumnBase),
            b'3' => Some(Advice::ColumnTariff),
            b'4' => Some(Advice::ColumnKey),
            _ => None,
        },
        "tariffs" => match field {
            b'1' => Some(Advice::ColumnName),
            b'2' => Some(Advice::ColumnSteps),
            b'3' => Some(Advice::ColumnFrom),
            _ => None,
        },
        _ => None,
    }
}

// Why a file is not read: that of an import, or the office's.
fn file_fault<L: Look>(look: &L, said: &ArgMatches) -> Option<Advice> {
    match said.get_str("csv") {
        Some(path) => look.text(path, said.get_str("desk").is_some()),
        None => look.text(said.get_str("file")?, false),
    }
}

// Why nobody is heard: as a desk, or at one.
fn net_fault<L: Look>(look: &L, said: &ArgMatches) -> Option<Advice> {
    match said.get_str("listen") {
        Some(address) => look.door(address),
        None => look.desk(said.get_str("desk")?),
    }
}

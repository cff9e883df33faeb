ghost use Rattle.std.specs.Prelude.{codes};
ghost use Rattle.command_line.specs.Commands.{IsNumberOrNone, SaysListed};
ghost use Rattle.command_line.specs.Said.{IsOptionalArgument, ReadsWhat, argument_rows};
ghost use Rattle.command_line.specs.Said.{parsed_argument};
ghost use Rattle.command_line.specs.Values.{SaysMeterNo, SaysTariff};

use crate::argument::{Argument, ArgumentKind};
use crate::description::Description;
use crate::{options, said, values};
use asks::Lookup;
use clap::ArgMatches;
use office_rules::{MeterNo, TariffName};

/// What it does, in its help.
pub(crate) const ABOUT: &str =
    "Prints the tariffs with their steps, the meters without their keys, the shifts with their \
    totals, or the sales";

/// `list --file F [--wait S] [--at S] [--after KEY] [--json] tariffs|meters|shifts|sales`.
pub(crate) const COMMAND: Description = Description {
    name: "list",
    about: ABOUT,
    example: "Example: vend list --file office.db meters",
    arguments: &[
        options::PRESENT_FILE_OR_DESK,
        options::DESK,
        options::WAIT,
        options::AT,
        AFTER,
        JSON,
        WHAT,
    ],
};

/// `--after`, which may be left out.
pub(crate) const AFTER: Argument = Argument {
    name: "after",
    kind: ArgumentKind::Optional("KEY"),
    help: "Print only what comes after this: with tariffs a name, with meters a \
        meter's number, with shifts and sales a number from 0 to 1000000000",
};

/// `--json`.
pub(crate) const JSON: Argument = Argument {
    name: "json",
    kind: ArgumentKind::Flag,
    help: "Print the JSON that 'vend serve' replies, a line for each page of at most 100",
};

/// What is listed.
pub(crate) const WHAT: Argument = Argument {
    name: "what",
    kind: ArgumentKind::Word("WHAT"),
    help: "What to print: tariffs, meters, shifts or sales",
};

/// The first page that `list` asks an office for: that of all members, or of those after one, which
/// need not be there.
pub(crate) fn read(matches: &ArgMatches) -> Option<Lookup>
    ensures { ReadsWhat result (SaysListed (argument_rows matches.now)) }
{
    match said::text(matches, "what")? {
        "tariffs" => Some(Lookup::Tariffs(tariff_after(matches)?)),
        "meters" => Some(Lookup::Meters(meter_after(matches)?)),
        "shifts" => Some(Lookup::Shifts(number_after(matches)?)),
        "sales" => Some(Lookup::Sales(number_after(matches)?)),
        _ => None,
    }
}

// The name that is given, or `None` within where none is.
fn tariff_after(matches: &ArgMatches) -> Option<Option<TariffName>>
    ensures { ReadsWhat result (IsOptionalArgument SaysTariff
        (parsed_argument (codes "after") (argument_rows matches.now))) }
{
    match said::text(matches, "after") {
        Some(word) => Some(Some(TariffName::read(word.as_bytes())?)),
        None => Some(None),
    }
}

// The same of the number of a meter.
fn meter_after(matches: &ArgMatches) -> Option<Option<MeterNo>>
    ensures { ReadsWhat result (IsOptionalArgument SaysMeterNo
        (parsed_argument (codes "after") (argument_rows matches.now))) }
{
    match said::text(matches, "after") {
        Some(word) => Some(Some(MeterNo::read(word.as_bytes())?)),
        None => Some(None),
    }
}

// The number that is given, or 0 where none is.
fn number_after(matches: &ArgMatches) -> Option<u32>
    ensures { ReadsWhat result (IsNumberOrNone
        (parsed_argument (codes "after") (argument_rows matches.now))) }
{
    match said::text(matches, "after") {
        Some(word) => values::after(word),
        None => Some(0),
    }
}

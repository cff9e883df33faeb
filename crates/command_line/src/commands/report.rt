ghost use Rattle.std.specs.Prelude.{codes};
ghost use Rattle.command_line.specs.Commands.{SaysAskWords, SaysLookup, SaysRequest};
ghost use Rattle.command_line.specs.Said.{IsArgument, ReadsWhat, argument_rows, parsed_argument};
ghost use Rattle.command_line.specs.Values.{SaysItem};

use crate::argument::{Argument, ArgumentKind};
use crate::description::Description;
use crate::office_words::AskWords;
use crate::{options, said, values};
use asks::{Ask, Lookup};
use clap::ArgMatches;
use office_rules::Request;

/// What it does, in its help.
pub(crate) const ABOUT: &str =
    "Prints a shift's report or totals, a sale's receipt again, or all sales as CSV";

/// `report --file F [--wait S] --kind shift|receipt|totals|sales [--number N]`.
pub(crate) const COMMAND: Description = Description {
    name: "report",
    about: ABOUT,
    example: "Example: vend report --file office.db --kind receipt --number 7",
    arguments: &[
        options::PRESENT_FILE_OR_DESK,
        options::DESK,
        options::WAIT,
        KIND,
        NUMBER,
    ],
};

/// `--kind`.
pub(crate) const KIND: Argument = Argument {
    name: "kind",
    kind: ArgumentKind::Needed("KIND"),
    help: "What to print: shift, receipt, totals or sales",
};

/// `--number`, which is 1 where it is left out.
pub(crate) const NUMBER: Argument = Argument {
    name: "number",
    kind: ArgumentKind::Default("N", "1"),
    help: "The number of the shift ('list shifts' prints it) or of the sale ('show last' prints \
        it), 1 to 1000000000; ignored with sales",
};

/// Which paper `report` asks an office for, or the export of its sales.
pub(crate) fn read<'a>(matches: &ArgMatches) -> Option<AskWords<'a>>
    ensures { ReadsWhat result (SaysAskWords (codes "report") (argument_rows matches.now)) }
{
    match said::text(matches, "kind")? {
        "receipt" => Some(AskWords::Ask(Ask::Receipt(read_number(matches)?))),
        "sales" => Some(AskWords::Export),
        "totals" => match read_lookup(matches) {
            Some(lookup) => Some(AskWords::Ask(Ask::Look(lookup))),
            None => None,
        },
        _ => match read_request(matches) {
            Some(request) => Some(AskWords::Ask(Ask::Do(request))),
            None => None,
        },
    }
}

/// The request of `report`: a shift is reported.
pub(crate) fn read_request(matches: &ArgMatches) -> Option<Request>
    ensures { ReadsWhat result (SaysRequest (codes "report") (argument_rows matches.now)) }
{
    match said::text(matches, "kind")? {
        "shift" => Some(Request::ShiftReport(read_number(matches)?)),
        _ => None,
    }
}

/// What `report` looks up: the totals of a shift.
pub(crate) fn read_lookup(matches: &ArgMatches) -> Option<Lookup>
    ensures { ReadsWhat result (SaysLookup (codes "report") (argument_rows matches.now)) }
{
    match said::text(matches, "kind")? {
        "totals" => Some(Lookup::ShiftTotals(read_number(matches)?)),
        _ => None,
    }
}

fn read_number(matches: &ArgMatches) -> Option<u32>
    ensures { ReadsWhat result (IsArgument SaysItem
        (parsed_argument (codes "number") (argument_rows matches.now))) }
{
    values::item(said::text(matches, "number")?)
}

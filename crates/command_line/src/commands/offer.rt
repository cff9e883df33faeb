ghost use Rattle.std.specs.Prelude.{codes};
ghost use Rattle.command_line.specs.Commands.{SaysLookup};
ghost use Rattle.command_line.specs.Said.{ReadsWhat, argument_rows};

use crate::argument::{Argument, ArgumentKind};
use crate::description::Description;
use crate::options;
use asks::Lookup;
use clap::ArgMatches;

/// What it does, in its help.
pub(crate) const ABOUT: &str =
    "Prints what a tender would buy for a meter now, as 'quote' does, and sells nothing; \
    'quote --file ..' means the same";

/// `offer --file F [--wait S] [--at S] --meter M [--json] TENDER`.
pub(crate) const COMMAND: Description = Description {
    name: "offer",
    about: ABOUT,
    example: "Example: vend quote --file office.db --meter 12345678903 1000",
    arguments: &[
        options::PRESENT_FILE_OR_DESK,
        options::DESK,
        options::WAIT,
        options::AT,
        options::METER,
        JSON,
        TENDER,
    ],
};

/// `--json`.
pub(crate) const JSON: Argument = Argument {
    name: "json",
    kind: ArgumentKind::Flag,
    help: "Print the JSON that 'vend serve' replies",
};

/// The tender.
pub(crate) const TENDER: Argument = Argument {
    name: "tender",
    kind: ArgumentKind::Word("TENDER"),
    help: "The money in whole cents, 1 to 100000000",
};

/// What `offer` looks up in an office.
pub(crate) fn read(matches: &ArgMatches) -> Option<Lookup>
    ensures { ReadsWhat result (SaysLookup (codes "offer") (argument_rows matches.now)) }
{
    let meter = options::read_meter(matches)?;
    Some(Lookup::Quote(meter, options::read_tender(matches)?))
}

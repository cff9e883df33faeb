ghost use Rattle.std.specs.Prelude.{codes};
ghost use Rattle.command_line.specs.Commands.{SaysRequest};
ghost use Rattle.command_line.specs.Said.{ReadsWhat, argument_rows};

use crate::argument::{Argument, ArgumentKind};
use crate::description::Description;
use crate::{options, said};
use clap::ArgMatches;
use office_rules::Request;

/// What it does, in its help.
pub(crate) const ABOUT: &str = "Opens or closes an operator's shift, and prints its number";

/// `shift --file F [--wait S] --operator O [--at S] [--transform X] open|close`.
pub(crate) const COMMAND: Description = Description {
    name: "shift",
    about: ABOUT,
    example: "Example: vend shift --file office.db --operator ann open",
    arguments: &[
        options::IGNORED_TRANSFORM,
        options::FILE_OR_DESK,
        options::DESK,
        options::WAIT,
        options::OPERATOR,
        options::AT,
        ACT,
    ],
};

/// What is done with the shift.
pub(crate) const ACT: Argument = Argument {
    name: "act",
    kind: ArgumentKind::Word("ACT"),
    help: "open or close",
};

/// The request of `shift`: an operator's shift is opened or closed.
pub(crate) fn read(matches: &ArgMatches) -> Option<Request>
    ensures { ReadsWhat result (SaysRequest (codes "shift") (argument_rows matches.now)) }
{
    let operator = options::read_operator(matches)?;
    match said::text(matches, "act")? {
        "open" => Some(Request::OpenShift(operator)),
        "close" => Some(Request::CloseShift(operator)),
        _ => None,
    }
}

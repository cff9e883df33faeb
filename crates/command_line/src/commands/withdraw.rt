ghost use Rattle.std.specs.Prelude.{codes};
ghost use Rattle.command_line.specs.Commands.{SaysRequest};
ghost use Rattle.command_line.specs.Said.{ReadsWhat, argument_rows};

use crate::description::Description;
use crate::options;
use clap::ArgMatches;
use office_rules::Request;

/// What it does, in its help.
pub(crate) const ABOUT: &str =
    "Takes back the steps that a tariff was to have from a later day on, before they begin";

/// `withdraw --file F [--wait S] --tariff NAME --from DAY [--at S] [--transform X]`.
pub(crate) const COMMAND: Description = Description {
    name: "withdraw",
    about: ABOUT,
    example: "Example: vend withdraw --file office.db --tariff night --from 2030-01-01",
    arguments: &[
        options::IGNORED_TRANSFORM,
        options::FILE_OR_DESK,
        options::DESK,
        options::WAIT,
        options::TARIFF,
        options::FROM,
        options::AT,
    ],
};

/// The request of `withdraw`: the steps of a tariff from a day on are taken back.
pub(crate) fn read(matches: &ArgMatches) -> Option<Request>
    ensures { ReadsWhat result (SaysRequest (codes "withdraw") (argument_rows matches.now)) }
{
    let tariff = options::read_tariff(matches)?;
    let from = options::read_from(matches)?;
    Some(Request::WithdrawSteps(tariff, from))
}

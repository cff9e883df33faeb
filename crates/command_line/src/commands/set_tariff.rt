ghost use Rattle.std.specs.Prelude.{codes};
ghost use Rattle.command_line.specs.Commands.{SaysRequest};
ghost use Rattle.command_line.specs.Said.{ReadsWhat, argument_rows};

use crate::description::Description;
use crate::options;
use clap::ArgMatches;
use office_rules::Request;

/// What it does, in its help.
pub(crate) const ABOUT: &str = "Gives a meter another tariff, by which its next sales are priced";

/// `tariff --file F [--wait S] --meter M --tariff NAME [--at S] [--transform X]`.
pub(crate) const COMMAND: Description = Description {
    name: "tariff",
    about: ABOUT,
    example: "Example: vend tariff --file office.db --meter 12345678903 --tariff night",
    arguments: &[
        options::IGNORED_TRANSFORM,
        options::FILE_OR_DESK,
        options::DESK,
        options::WAIT,
        options::METER,
        options::TARIFF,
        options::AT,
    ],
};

/// The request of `tariff`: a meter gets another tariff.
pub(crate) fn read(matches: &ArgMatches) -> Option<Request>
    ensures { ReadsWhat result (SaysRequest (codes "tariff") (argument_rows matches.now)) }
{
    let meter = options::read_meter(matches)?;
    let tariff = options::read_tariff(matches)?;
    Some(Request::SetTariff(meter, tariff))
}

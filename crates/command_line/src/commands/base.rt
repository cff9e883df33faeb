ghost use Rattle.std.specs.Prelude.{codes};
ghost use Rattle.command_line.specs.Commands.{SaysRequest};
ghost use Rattle.command_line.specs.Said.{ReadsWhat, argument_rows};

use crate::description::Description;
use crate::options;
use clap::ArgMatches;
use office_rules::Request;

/// What it does, in its help.
pub(crate) const ABOUT: &str =
    "Moves a meter to a later base date, from which its identifiers begin anew";

/// `base --file F [--wait S] --meter M --base Y [--at S] [--transform X]`.
pub(crate) const COMMAND: Description = Description {
    name: "base",
    about: ABOUT,
    example: "Example: vend base --file office.db --meter 12345678903 --base 2035",
    arguments: &[
        options::IGNORED_TRANSFORM,
        options::FILE_OR_DESK,
        options::DESK,
        options::WAIT,
        options::METER,
        options::BASE,
        options::AT,
    ],
};

/// The request of `base`: a meter is moved to a later base date.
pub(crate) fn read(matches: &ArgMatches) -> Option<Request>
    ensures { ReadsWhat result (SaysRequest (codes "base") (argument_rows matches.now)) }
{
    let meter = options::read_meter(matches)?;
    let base = options::read_base(matches)?;
    Some(Request::MoveBase(meter, base))
}

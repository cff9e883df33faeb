ghost use Rattle.std.specs.Prelude.{codes};
ghost use Rattle.command_line.specs.Commands.{SaysRequest};
ghost use Rattle.command_line.specs.Said.{ReadsWhat, argument_rows};

use crate::description::Description;
use crate::options;
use clap::ArgMatches;
use office_rules::Request;

/// What it does, in its help.
pub(crate) const ABOUT: &str = "Gives a meter another key, as long as nothing was sold to it";

/// `key --file F [--wait S] --meter M --key K [--at S] [--transform X]`.
pub(crate) const COMMAND: Description = Description {
    name: "key",
    about: ABOUT,
    example: "Example: vend key --file office.db --meter 12345678903 --key 0123456789abcdef",
    arguments: &[
        options::IGNORED_TRANSFORM,
        options::FILE_OR_DESK,
        options::DESK,
        options::WAIT,
        options::METER,
        options::KEY,
        options::AT,
    ],
};

/// The request of `key`: a meter that has no sale gets another key.
pub(crate) fn read(matches: &ArgMatches) -> Option<Request>
    ensures { ReadsWhat result (SaysRequest (codes "key") (argument_rows matches.now)) }
{
    let meter = options::read_meter(matches)?;
    let key = options::read_key_of(matches)?;
    Some(Request::SetKey(meter, key))
}

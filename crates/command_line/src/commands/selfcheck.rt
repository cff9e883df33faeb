ghost use Rattle.command_line.specs.Said.{ReadsWhat, argument_rows};

use crate::description::Description;
use crate::options;
use crate::transform::Shipped;
use clap::ArgMatches;

/// What `selfcheck` is asked: under which transform the offices write their token.
#[derive(Clone, Copy)]
pub struct SelfcheckWords {
    pub transform: Shipped,
}

/// `selfcheck [--transform X]`.
pub(crate) const COMMAND: Description = Description {
    name: "selfcheck",
    about: "Tests the HTTP server over loopback with an office in memory, and prints 'selfcheck \
        ok'",
    example: "Example: vend selfcheck",
    arguments: &[options::TRANSFORM],
};

impl SelfcheckWords {
    ghost use Rattle.command_line.specs.Commands.{SaysSelfcheck};

    pub(crate) fn read(matches: &ArgMatches) -> Option<SelfcheckWords>
        ensures { ReadsWhat result (SaysSelfcheck (argument_rows matches.now)) }
    {
        let transform = options::read_transform(matches)?;
        Some(SelfcheckWords { transform })
    }
}

ghost use Rattle.command_line.specs.Commands.{SaysMeterCommand};
ghost use Rattle.command_line.specs.Said.{ReadsWhat, argument_rows};

use crate::argument::{Argument, ArgumentKind};
use crate::description::Description;
use crate::transform::Shipped;
use crate::{options, said};
use clap::ArgMatches;

/// What `meter` is asked to do: tokens, entered into a new meter with this key.
#[derive(Clone, Copy)]
pub struct MeterWords<'m, 'a> {
    pub transform: Shipped,
    pub key: u64,
    pub tokens: &'m [&'a str],
}

/// `meter --key K [--transform X] TOKEN..`.
pub(crate) const COMMAND: Description = Description {
    name: "meter",
    about: "Enters tokens into a new simulated meter, and prints its answer to each and its \
        credit",
    example: "Example: vend meter --key 0000000000000000 00072057602627981690",
    arguments: &[options::TRANSFORM, options::KEY, TOKENS],
};

const TOKENS: Argument = Argument {
    name: "tokens",
    kind: ArgumentKind::Words("TOKEN"),
    help: "A token of twenty digits; or clear, which has the meter forget its identifiers and \
        keep its credit",
};

impl<'m, 'a> MeterWords<'m, 'a> {
    pub(crate) fn read(matches: &'m ArgMatches<'a>) -> Option<MeterWords<'m, 'a>>
        ensures { ReadsWhat result (SaysMeterCommand (argument_rows matches.now)) }
    {
        Some(MeterWords {
            transform: options::read_transform(matches)?,
            key: options::read_key_of(matches)?,
            tokens: said::texts(matches, "tokens")?,
        })
    }
}

ghost use Rattle.std.specs.Prelude.{Err};
ghost use Rattle.command_line.specs.Commands.{SaysTrial};
ghost use Rattle.command_line.specs.Said.{ReadsOrFull, argument_rows};

use crate::argument::{Argument, ArgumentKind};
use crate::description::Description;
use crate::transform::Shipped;
use crate::words::BadWords;
use crate::{options, said, values};
use clap::ArgMatches;
use std::alloc::Global;
use sts_fields::{Base, Moment};

/// What `trial` is asked to do: amounts in tenths of a kWh, sold to one meter at a moment.
#[derive(Drop)]
pub struct TrialWords {
    pub transform: Shipped,
    pub base: Base,
    pub key: u64,
    /// The machine's clock where it is left out.
    pub at: Option<Moment>,
    pub amounts: Vec<u32>,
}

/// `trial --base Y --key K [--at S] [--transform X] T..`.
pub(crate) const COMMAND: Description = Description {
    name: "trial",
    about: "Sells amounts to one meter in memory, without a file, and prints a token a line; \
        'sell --base ..' means the same",
    example: "Example: vend trial --base 2014 --key 0000000000000000 105",
    arguments: &[
        options::TRANSFORM,
        options::BASE,
        options::KEY,
        options::AT,
        AMOUNTS,
    ],
};

const AMOUNTS: Argument = Argument {
    name: "amounts",
    kind: ArgumentKind::Words("TENTHS"),
    help: "An amount in tenths of a kWh that a token can carry, 1 to 18201624: 105 is 10.5 kWh",
};

impl TrialWords {
    pub(crate) fn read(alloc: Global, matches: &ArgMatches) -> Result<TrialWords, BadWords>
        ensures { ReadsOrFull result (SaysTrial (argument_rows matches.now)) }
    {
        let Some(transform) = options::read_transform(matches) else {
            return Err(BadWords::Value);
        };
        let Some(base) = options::read_base(matches) else {
            return Err(BadWords::Value);
        };
        let Some(key) = options::read_key_of(matches) else {
            return Err(BadWords::Value);
        };
        let Some(at) = options::read_at(matches) else {
            return Err(BadWords::Value);
        };
        let Some(amounts) = said::texts(matches, "amounts") else {
            return Err(BadWords::Value);
        };
        let amounts = match values::all_tenths(alloc, amounts) {
            Ok(amounts) => amounts,
            Err(fault) => return Err(fault),
        };
        Ok(TrialWords {
            transform,
            base,
            key,
            at,
            amounts,
        })
    }
}

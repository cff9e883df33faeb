ghost use Rattle.std.specs.Prelude.{◌≤◌, codes};
ghost use Rattle.tariff.specs.Cost.{greatest_prior};
ghost use Rattle.command_line.specs.Said.{IsArgument, ReadsOrFull, ReadsWhat, argument_rows};
ghost use Rattle.command_line.specs.Said.{parsed_argument};
ghost use Rattle.command_line.specs.Values.{SaysPrior, SaysSteps};

use crate::argument::{Argument, ArgumentKind};
use crate::description::Description;
use crate::transform::Shipped;
use crate::words::BadWords;
use crate::{options, said, values};
use clap::ArgMatches;
use std::alloc::Global;
use tariff::{Steps, StepsFault, Tender};

/// What `quote` is asked: what a tender buys by some steps, after the tenths of a kWh that were
/// already bought earlier in the month.
#[derive(Drop)]
pub struct QuoteWords {
    /// No token is written or read, so this one does not matter.
    pub transform: Shipped,
    pub steps: Steps,
    pub prior: u64,
    pub tender: Tender,
    ghost prior_in_range: { prior ≤ greatest_prior },
}

/// `quote [--transform X] STEPS PRIOR TENDER`.
pub(crate) const COMMAND: Description = Description {
    name: "quote",
    about: "Prints what a tender buys: tenths of a kWh, price and change in cents",
    example: "Example: vend quote '500:100;:200' 490 200",
    arguments: &[options::IGNORED_TRANSFORM, STEPS, PRIOR, TENDER],
};

const STEPS: Argument = Argument {
    name: "steps",
    kind: ArgumentKind::Word("STEPS"),
    help: "One to eight steps of a tariff as END:PRICE with ';' between them: rising ends in tenths \
        of a kWh a month, 1 to 4294967295, the last without an end, and prices in cents per \
        kWh, 1 to 1000000",
};

const PRIOR: Argument = Argument {
    name: "prior",
    kind: ArgumentKind::Word("PRIOR"),
    help: "Tenths of a kWh already bought earlier in this month, 0 to 100000000000000000",
};

const TENDER: Argument = Argument {
    name: "tender",
    kind: ArgumentKind::Word("TENDER"),
    help: "The money in whole cents, 1 to 100000000",
};

impl QuoteWords {
    ghost use Rattle.command_line.specs.Commands.{SaysQuote};

    pub(crate) fn read(alloc: Global, matches: &ArgMatches) -> Result<QuoteWords, BadWords>
        ensures { ReadsOrFull result (SaysQuote (argument_rows matches.now)) }
    {
        let Some(transform) = options::read_transform(matches) else {
            return Err(BadWords::Value);
        };
        let Some(prior) = read_prior(matches) else {
            return Err(BadWords::Value);
        };
        let Some(tender) = options::read_tender(matches) else {
            return Err(BadWords::Value);
        };
        match read_steps(alloc, matches) {
            Ok(steps) => Ok(QuoteWords {
                transform,
                steps,
                prior,
                tender,
            }),
            Err(fault) => Err(fault),
        }
    }
}

fn read_prior(matches: &ArgMatches) -> Option<u64>
    ensures { ReadsWhat result (IsArgument SaysPrior
        (parsed_argument (codes "prior") (argument_rows matches.now))) }
{
    values::prior(said::text(matches, "prior")?)
}

fn read_steps(alloc: Global, matches: &ArgMatches) -> Result<Steps, BadWords>
    ensures { ReadsOrFull result (IsArgument SaysSteps
        (parsed_argument (codes "steps") (argument_rows matches.now))) }
{
    let Some(word) = said::text(matches, "steps") else {
        return Err(BadWords::Value);
    };
    match Steps::of_text(alloc, word.as_bytes()) {
        Ok(steps) => Ok(steps),
        Err(StepsFault::Memory) => Err(BadWords::Memory),
        Err(_) => Err(BadWords::Value),
    }
}

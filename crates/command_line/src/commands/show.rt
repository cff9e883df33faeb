ghost use Rattle.std.specs.Prelude.{codes};
ghost use Rattle.command_line.specs.Commands.{SaysLookup};
ghost use Rattle.command_line.specs.Said.{ReadsWhat, argument_rows};

use crate::argument::{Argument, ArgumentKind};
use crate::description::Description;
use crate::{options, said};
use asks::Lookup;
use clap::ArgMatches;

/// What it does, in its help.
pub(crate) const ABOUT: &str =
    "Prints a meter and what it bought this month, a sale by its ref, or the receipt of a meter's \
    last sale";

/// `show --file F [--wait S] [--at S] [--json] meter --meter M`, the same with
/// `sale --operator O --ref R`, and `show --file F [--wait S] [--at S] last --meter M`.
pub(crate) const COMMAND: Description = Description {
    name: "show",
    about: ABOUT,
    example: "Example: vend show --file office.db meter --meter 12345678903",
    arguments: &[
        options::PRESENT_FILE_OR_DESK,
        options::DESK,
        options::WAIT,
        options::AT,
        METER,
        OPERATOR,
        ORDER_REF,
        JSON,
        WHAT,
    ],
};

/// `--meter`, with `meter` and `last`.
pub(crate) const METER: Argument = Argument {
    name: "meter",
    kind: ArgumentKind::Optional("NUMBER"),
    help: "With meter and last: the meter's number, eleven digits of which the last is a \
        Luhn check",
};

/// `--operator`, with `sale`.
pub(crate) const OPERATOR: Argument = Argument {
    name: "operator",
    kind: ArgumentKind::Optional("NAME"),
    help: "With sale: the cashier who sold, 1 to 16 ASCII letters or digits",
};

/// `--ref`, with `sale`.
pub(crate) const ORDER_REF: Argument = Argument {
    name: "ref",
    kind: ArgumentKind::Optional("REF"),
    help: "With sale: your name for the order, 1 to 32 ASCII letters, digits or hyphens",
};

/// `--json`.
pub(crate) const JSON: Argument = Argument {
    name: "json",
    kind: ArgumentKind::Flag,
    help: "With meter and sale: print the JSON that 'vend serve' replies",
};

/// What is shown.
pub(crate) const WHAT: Argument = Argument {
    name: "what",
    kind: ArgumentKind::Word("WHAT"),
    help: "What to print: meter, sale or last",
};

/// What `show` looks up in an office.
pub(crate) fn read(matches: &ArgMatches) -> Option<Lookup>
    ensures { ReadsWhat result (SaysLookup (codes "show") (argument_rows matches.now)) }
{
    match said::text(matches, "what")? {
        "meter" => Some(Lookup::Meter(options::read_meter(matches)?)),
        // A receipt is a text, and no JSON.
        "last" => match options::read_json(matches)? {
            true => None,
            false => Some(Lookup::LastSale(options::read_meter(matches)?)),
        },
        "sale" => {
            let operator = options::read_operator(matches)?;
            Some(Lookup::SaleOfRef(operator, options::read_ref(matches)?))
        }
        _ => None,
    }
}

ghost use Rattle.std.specs.Prelude.{codes};
ghost use Rattle.command_line.specs.Commands.{SaysOrder, SaysRequest};
ghost use Rattle.command_line.specs.Said.{ReadsWhat, argument_rows};

use crate::argument::{Argument, ArgumentKind};
use crate::description::Description;
use crate::options;
use clap::ArgMatches;
use office_rules::{Order, Request};

/// What it does, in its help.
pub(crate) const ABOUT: &str =
    "Sells electricity to a meter and prints the receipt; the same --ref again prints the same \
    receipt";

/// `sell --file F [--wait S] --operator O --ref R --meter M --tender C [--at S] [--transform X]`.
pub(crate) const COMMAND: Description = Description {
    name: "sell",
    about: ABOUT,
    example: "Example: vend sell --file office.db --operator ann --ref A-1 --meter 12345678903 \
        --tender 1000",
    arguments: &[
        options::TRANSFORM,
        options::FILE_OR_DESK,
        options::DESK,
        options::WAIT,
        options::OPERATOR,
        ORDER_REF,
        options::METER,
        TENDER,
        options::AT,
    ],
};

/// `--ref`.
pub(crate) const ORDER_REF: Argument = Argument {
    name: "ref",
    kind: ArgumentKind::Needed("REF"),
    help: "Your name for the order, new for each: 1 to 32 ASCII letters, digits or hyphens",
};

/// `--tender`.
pub(crate) const TENDER: Argument = Argument {
    name: "tender",
    kind: ArgumentKind::Needed("CENTS"),
    help: "The customer's money in whole cents, 1 to 100000000",
};

/// The request of `sell`: an order is sold.
pub(crate) fn read(matches: &ArgMatches) -> Option<Request>
    ensures { ReadsWhat result (SaysRequest (codes "sell") (argument_rows matches.now)) }
{
    Some(Request::Sell(read_order(matches)?))
}

// The order that is sold.
fn read_order(matches: &ArgMatches) -> Option<Order>
    ensures { ReadsWhat result (SaysOrder (argument_rows matches.now)) }
{
    Some(Order {
        operator: options::read_operator(matches)?,
        order_ref: options::read_ref(matches)?,
        meter: options::read_meter(matches)?,
        tender: options::read_tender(matches)?,
    })
}

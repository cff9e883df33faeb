//! The commands: how each is described, and what its words say.
ghost use Rattle.std.specs.Prelude.{◌≡◌, map};
ghost use Rattle.command_line.specs.Description.{shape_of_description};
ghost use Rattle.command_line.specs.Line.{care_commands, officeless_commands, reading_commands};
ghost use Rattle.command_line.specs.Line.{shop_commands};

use crate::description::Description;

pub mod audit;
pub mod base;
pub mod import;
pub mod list;
pub mod meter;
pub mod offer;
pub mod quote;
pub mod report;
pub mod selfcheck;
pub mod sell;
pub mod serve;
pub mod set_key;
pub mod set_tariff;
pub mod shift;
pub mod show;
pub mod trial;
pub mod withdraw;

// The commands in the order in which a shop needs them. They stand in groups, since a proof reads a
// static whole, at the cost of its texts times its references.
static SHOP: [Description; 3] = [import::COMMAND, shift::COMMAND, sell::COMMAND];

static READING: [Description; 4] = [
    report::COMMAND,
    show::COMMAND,
    list::COMMAND,
    offer::COMMAND,
];

static CARE: [Description; 6] = [
    set_tariff::COMMAND,
    withdraw::COMMAND,
    base::COMMAND,
    set_key::COMMAND,
    audit::COMMAND,
    serve::COMMAND,
];

static OFFICELESS: [Description; 4] = [
    quote::COMMAND,
    meter::COMMAND,
    trial::COMMAND,
    selfcheck::COMMAND,
];

/// The commands by which a shop sells.
pub(crate) fn shop() -> &'static [Description]
    ensures { map shape_of_description result.now ≡ shop_commands }
{
    &SHOP
}

/// Those that print what an office has.
pub(crate) fn reading() -> &'static [Description]
    ensures { map shape_of_description result.now ≡ reading_commands }
{
    &READING
}

/// Those that change a tariff or a meter, check a file and serve it.
pub(crate) fn care() -> &'static [Description]
    ensures { map shape_of_description result.now ≡ care_commands }
{
    &CARE
}

/// Those that need no office.
pub(crate) fn officeless() -> &'static [Description]
    ensures { map shape_of_description result.now ≡ officeless_commands }
{
    &OFFICELESS
}

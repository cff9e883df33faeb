ghost use Rattle.std.specs.Prelude.{codes};
ghost use Rattle.command_line.specs.Address.{SaysAddress};
ghost use Rattle.command_line.specs.Commands.{SaysServe};
ghost use Rattle.command_line.specs.Said.{IsArgument, ReadsWhat, argument_rows, parsed_argument};
ghost use Rattle.command_line.specs.Values.{SaysConnections, SaysSyncs};

use crate::address::Address;
use crate::argument::{Argument, ArgumentKind};
use crate::description::Description;
use crate::syncs::Syncs;
use crate::transform::Shipped;
use crate::{options, said, values};
use clap::ArgMatches;

/// What `serve` is asked to do: the desk of an office, open to so many connections.
#[derive(Clone, Copy)]
pub struct ServeWords<'a> {
    pub transform: Shipped,
    /// The file that keeps the office.
    pub file: &'a str,
    /// For how many seconds it waits while another program has the file, 0 to 3600.
    pub wait: u32,
    pub syncs: Syncs,
    pub listen: Address,
    /// 1 to 1000000.
    pub connections: u32,
}

/// `serve --file F [--wait S] --listen ADDR --connections N [--transform X] [--sync WAY]`.
pub(crate) const COMMAND: Description = Description {
    name: "serve",
    about: "Answers HTTP/1.1 requests, one connection after another, and prints on standard error \
        where it listens",
    example: "Example: vend serve --file office.db --listen 127.0.0.1:8080 --connections 1000000",
    arguments: &[
        options::TRANSFORM,
        options::FILE,
        options::WAIT,
        SYNC,
        LISTEN,
        CONNECTIONS,
    ],
};

const SYNC: Argument = Argument {
    name: "sync",
    kind: ArgumentKind::Default("WAY", "twice"),
    help: "How often a change is synced before its reply; full is once, for a disk that finishes \
        each sector it begins to write: twice or full",
};

const LISTEN: Argument = Argument {
    name: "listen",
    kind: ArgumentKind::Needed("ADDRESS"),
    help: "Where to listen: four numbers and a port, e.g. 127.0.0.1:8080; with port 0 the \
        system chooses one",
};

const CONNECTIONS: Argument = Argument {
    name: "connections",
    kind: ArgumentKind::Needed("NUMBER"),
    help: "How many connections to serve before it exits, 1 to 1000000",
};

impl<'a> ServeWords<'a> {
    pub(crate) fn read(matches: &ArgMatches<'a>) -> Option<ServeWords<'a>>
        ensures { ReadsWhat result (SaysServe (argument_rows matches.now)) }
    {
        Some(ServeWords {
            transform: options::read_transform(matches)?,
            file: options::read_file(matches)?,
            wait: options::read_wait(matches)?,
            syncs: read_syncs(matches)?,
            listen: read_listen(matches)?,
            connections: read_connections(matches)?,
        })
    }
}

fn read_syncs(matches: &ArgMatches) -> Option<Syncs>
    ensures { ReadsWhat result (IsArgument SaysSyncs
        (parsed_argument (codes "sync") (argument_rows matches.now))) }
{
    Syncs::read(said::text(matches, "sync")?)
}

fn read_listen(matches: &ArgMatches) -> Option<Address>
    ensures { ReadsWhat result (IsArgument SaysAddress
        (parsed_argument (codes "listen") (argument_rows matches.now))) }
{
    Address::read(said::text(matches, "listen")?)
}

fn read_connections(matches: &ArgMatches) -> Option<u32>
    ensures { ReadsWhat result (IsArgument SaysConnections
        (parsed_argument (codes "connections") (argument_rows matches.now))) }
{
    values::connections(said::text(matches, "connections")?)
}

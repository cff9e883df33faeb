//! Which office the words of a command name.
ghost use Rattle.std.specs.Prelude.{◌≡◌};
ghost use Rattle.command_line.specs.Place.{SaysPlace, asks_office, is_asked_to_do};
ghost use Rattle.command_line.specs.Place.{is_asked_to_tell, is_given, is_of_file, lacks_place};
ghost use Rattle.command_line.specs.Said.{ReadsWhat, argument_rows};

use crate::address::Address;
use crate::transform::Shipped;
use crate::{options, said};
use clap::ArgMatches;
use sts_fields::Moment;

/// An office in a file, and how it is asked.
#[derive(Clone, Copy)]
pub struct FilePlace<'a> {
    pub path: &'a str,
    /// For how many seconds it waits while another program has the file, 0 to 3600.
    pub wait: u32,
    pub transform: Shipped,
    /// The machine's clock where it is left out.
    pub at: Option<Moment>,
}

/// The office that a command asks: one in a file, or one that a running desk serves.
#[derive(Clone, Copy)]
pub enum Place<'a> {
    File(FilePlace<'a>),
    /// Where it listens. It has a clock and a transform of its own, and its file.
    Desk(Address),
}

/// The one office that the words name: a desk with nothing that only a file has, or a file.
pub(crate) fn read_place<'a>(matches: &ArgMatches<'a>) -> Option<Place<'a>>
    ensures { ReadsWhat result (SaysPlace (argument_rows matches.now)) }
{
    match said::text(matches, "desk") {
        Some(_) if is_of_file(matches) => None,
        Some(word) => match Address::read(word) {
            Some(address) => Some(Place::Desk(address)),
            None => None,
        },
        None => Some(Place::File(FilePlace {
            path: options::read_file(matches)?,
            wait: options::read_wait(matches)?,
            transform: options::read_transform(matches)?,
            at: options::read_at(matches)?,
        })),
    }
}

/// Whether the words of the command of a name have to name one office, and do not.
#[tactic(auto, unfolding(crate::specs::Place::lacks_place))]
pub(crate) fn lacks_place(name: &str, matches: &ArgMatches) -> bool
    ensures { result ≡ lacks_place name.now (argument_rows matches.now) }
{
    if !asks_office(name) {
        return false;
    }
    if is_given(matches, "desk") {
        is_of_file(matches)
    } else {
        !is_given(matches, "file")
    }
}

// Whether a file or a running desk is asked by the command of this name.
fn asks_office(name: &str) -> bool
    ensures { result ≡ asks_office name.now }
{
    is_asked_to_do(name) || is_asked_to_tell(name)
}

// A command that changes an office.
fn is_asked_to_do(name: &str) -> bool
    ensures { result ≡ is_asked_to_do name.now }
{
    name == "import"
        || name == "shift"
        || name == "sell"
        || name == "tariff"
        || name == "withdraw"
        || name == "base"
        || name == "key"
}

// A command that prints what an office has.
fn is_asked_to_tell(name: &str) -> bool
    ensures { result ≡ is_asked_to_tell name.now }
{
    name == "report" || name == "show" || name == "list" || name == "offer"
}

// Whether the words say what only a file has.
fn is_of_file(matches: &ArgMatches) -> bool
    ensures { result ≡ is_of_file (argument_rows matches.now) }
{
    is_given(matches, "file")
        || is_given(matches, "wait")
        || is_given(matches, "at")
        || is_given(matches, "transform")
}

// Whether the words give an argument.
fn is_given(matches: &ArgMatches, id: &str) -> bool
    ensures { result ≡ is_given id.now (argument_rows matches.now) }
{
    said::text(matches, id).is_some()
}

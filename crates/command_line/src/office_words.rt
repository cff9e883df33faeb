ghost use Rattle.command_line.specs.Commands.{SaysAskWords, SaysLookup, SaysOffice, SaysRequest};
ghost use Rattle.command_line.specs.Said.{ReadsWhat, argument_rows};

use crate::commands::{
    base, import, list, offer, report, sell, set_key, set_tariff, shift, show, withdraw,
};
use crate::options;
use crate::place::{Place, read_place};
use asks::{Ask, Lookup};
use clap::ArgMatches;
use office_rules::Request;
use papers::FileKind;

/// What an office is asked by the words of a command.
#[derive(Drop)]
pub enum AskWords<'a> {
    /// To add the rows of the file of this path.
    Import(FileKind, &'a str),
    /// One thing, which is no import.
    Ask(Ask<'a>),
    /// For all pages from this one on.
    List(Lookup),
    /// For all sales, as CSV.
    Export,
}

impl<'a> AskWords<'a> {
    // Reads the words of the command of a name; `None` too where it asks no office.
    fn read(name: &str, matches: &ArgMatches<'a>) -> Option<AskWords<'a>>
        ensures { ReadsWhat result (SaysAskWords name.now (argument_rows matches.now)) }
    {
        match name {
            "import" => import::read(matches),
            "report" => report::read(matches),
            "list" => match list::read(matches) {
                Some(lookup) => Some(AskWords::List(lookup)),
                None => None,
            },
            "show" | "offer" => match read_lookup(name, matches) {
                Some(lookup) => Some(AskWords::Ask(Ask::Look(lookup))),
                None => None,
            },
            _ => match read_request(name, matches) {
                Some(request) => Some(AskWords::Ask(Ask::Do(request))),
                None => None,
            },
        }
    }
}

/// What a command asks of an office, and which.
#[derive(Drop)]
pub struct OfficeWords<'a> {
    pub place: Place<'a>,
    pub ask: AskWords<'a>,
    /// Whether what is found is printed as JSON.
    pub json: bool,
}

impl<'a> OfficeWords<'a> {
    /// Reads the words of the command of a name; `None` too where it asks no office.
    pub(crate) fn read(name: &str, matches: &ArgMatches<'a>) -> Option<OfficeWords<'a>>
        ensures { ReadsWhat result (SaysOffice name.now (argument_rows matches.now)) }
    {
        let Some(place) = read_place(matches) else {
            return None;
        };
        let json = options::read_json(matches)?;
        match AskWords::read(name, matches) {
            Some(ask) => Some(OfficeWords { place, ask, json }),
            None => None,
        }
    }
}

fn read_request(name: &str, matches: &ArgMatches) -> Option<Request>
    ensures { ReadsWhat result (SaysRequest name.now (argument_rows matches.now)) }
{
    match name {
        "tariff" => set_tariff::read(matches),
        "withdraw" => withdraw::read(matches),
        "base" => base::read(matches),
        "key" => set_key::read(matches),
        "shift" => shift::read(matches),
        "sell" => sell::read(matches),
        "report" => report::read_request(matches),
        _ => None,
    }
}

fn read_lookup(name: &str, matches: &ArgMatches) -> Option<Lookup>
    ensures { ReadsWhat result (SaysLookup name.now (argument_rows matches.now)) }
{
    match name {
        "show" => show::read(matches),
        "offer" => offer::read(matches),
        "report" => report::read_lookup(matches),
        _ => None,
    }
}

ghost use Rattle.std.specs.Prelude.{◌≡◌};
ghost use Rattle.clap.specs.Simple.{subcommand_rows_of};
ghost use Rattle.command_line.specs.Asked.{ArgumentsSay, ReadsAsked, syncs_of};
ghost use Rattle.command_line.specs.Said.{ReadsOrFull, argument_rows};

use crate::commands::audit::AuditWords;
use crate::commands::meter::MeterWords;
use crate::commands::quote::QuoteWords;
use crate::commands::selfcheck::SelfcheckWords;
use crate::commands::serve::ServeWords;
use crate::commands::trial::TrialWords;
use crate::office_words::OfficeWords;
use crate::place::lacks_place;
use crate::said;
use crate::syncs::Syncs;
use crate::words::BadWords;
use clap::ArgMatches;
use std::alloc::Global;

/// What the words of a command ask for.
#[derive(Drop)]
pub enum Asked<'m, 'a> {
    /// Something of an office, in a file or at a desk.
    Office(OfficeWords<'a>),
    Trial(TrialWords),
    Meter(MeterWords<'m, 'a>),
    Quote(QuoteWords),
    Serve(ServeWords<'a>),
    Selfcheck(SelfcheckWords),
    Audit(AuditWords<'a>),
}

impl<'m, 'a> Asked<'m, 'a> {
    /// Reads what the arguments of the given command ask for.
    ///
    /// # Errors
    /// `Place` if the command has to name one office and does not, `Value` if a value is outside
    /// its rule, so that they ask for nothing; `Memory`.
    pub fn read(alloc: Global, matches: &'m ArgMatches<'a>) -> Result<Asked<'m, 'a>, BadWords>
        ensures { ReadsAsked result (subcommand_rows_of matches.now) }
    {
        match said::command(matches) {
            Some((name, words)) => {
                if lacks_place(name, words) {
                    return Err(BadWords::Place);
                }
                Asked::read_command(alloc, name, words)
            }
            // The line has no words without a command.
            None => Err(BadWords::Value),
        }
    }

    // Reads those of the command of a name, whatever office it names.
    fn read_command(
        alloc: Global,
        name: &str,
        words: &'m ArgMatches<'a>,
    ) -> Result<Asked<'m, 'a>, BadWords>
        ensures { ReadsOrFull result (ArgumentsSay name.now (argument_rows words.now)) }
    {
        match name {
            "trial" => Ok(Asked::Trial(TrialWords::read(alloc, words)?)),
            "meter" => match MeterWords::read(words) {
                Some(words) => Ok(Asked::Meter(words)),
                None => Err(BadWords::Value),
            },
            "quote" => Ok(Asked::Quote(QuoteWords::read(alloc, words)?)),
            "serve" => match ServeWords::read(words) {
                Some(words) => Ok(Asked::Serve(words)),
                None => Err(BadWords::Value),
            },
            "selfcheck" => match SelfcheckWords::read(words) {
                Some(words) => Ok(Asked::Selfcheck(words)),
                None => Err(BadWords::Value),
            },
            "audit" => match AuditWords::read(words) {
                Some(words) => Ok(Asked::Audit(words)),
                None => Err(BadWords::Value),
            },
            _ => match OfficeWords::read(name, words) {
                Some(words) => Ok(Asked::Office(words)),
                None => Err(BadWords::Value),
            },
        }
    }

    /// How often a change is synced, which only `serve` leaves open.
    pub(crate) fn syncs(&self) -> Syncs
        ensures { result ≡ syncs_of self.now }
    {
        match self {
            Asked::Serve(words) => words.syncs,
            _ => Syncs::Twice,
        }
    }
}

//! What the words say of an argument, from the matches of a command.
ghost use Rattle.std.specs.Prelude.{◌≡◌, map, option_map};
ghost use Rattle.clap.specs.Simple.{subcommand_rows_of};
ghost use Rattle.command_line.specs.Said.{parsed_arguments, argument_rows, parsed_argument};

use clap::ArgMatches;

/// The first text that stands for an argument.
pub(crate) fn text<'a>(matches: &ArgMatches<'a>, id: &str) -> Option<&'a str>
    ensures { option_map (λ text. text.now) result
        ≡ parsed_argument id.now (argument_rows matches.now) }
{
    matches.get_str(id)
}

/// All the texts that stand for an argument.
pub(crate) fn texts<'m, 'a>(matches: &'m ArgMatches<'a>, id: &str) -> Option<&'m [&'a str]>
    ensures { option_map (λ texts. map (λ text. text.now) texts.now) result
        ≡ parsed_arguments id.now (argument_rows matches.now) }
{
    matches.get_strs(id)
}

/// The name of the command that was met, and what the words say of its arguments.
pub(crate) fn command<'m, 'a>(matches: &'m ArgMatches<'a>) -> Option<(&'a str, &'m ArgMatches<'a>)>
    ensures { option_map (λ met. (met.0.now, argument_rows met.1.now)) result
        ≡ subcommand_rows_of matches.now }
{
    matches.subcommand()
}

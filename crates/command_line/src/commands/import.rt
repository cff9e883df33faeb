ghost use Rattle.std.specs.Prelude.{codes};
ghost use Rattle.command_line.specs.Commands.{SaysAskWords, SaysKind};
ghost use Rattle.command_line.specs.Said.{IsArgument, ReadsWhat, argument_rows, parsed_argument};
ghost use Rattle.command_line.specs.Values.{SaysText};

use crate::argument::{Argument, ArgumentKind};
use crate::description::Description;
use crate::office_words::AskWords;
use crate::{options, said};
use clap::ArgMatches;
use papers::FileKind;

/// What it does, in its help.
pub(crate) const ABOUT: &str =
    "Adds the tariffs or meters of a CSV file, all or none, and prints how many were new";

/// `import --file F [--wait S] [--at S] [--transform X] tariffs|meters CSV`.
pub(crate) const COMMAND: Description = Description {
    name: "import",
    about: ABOUT,
    example: "Example: vend import --file office.db tariffs tariffs.csv",
    arguments: &[
        options::IGNORED_TRANSFORM,
        options::FILE_OR_DESK,
        options::DESK,
        options::WAIT,
        options::AT,
        KIND,
        CSV,
    ],
};

/// The kind of the rows.
pub(crate) const KIND: Argument = Argument {
    name: "kind",
    kind: ArgumentKind::Word("KIND"),
    help: "What the rows are: tariffs or meters",
};

/// The file of the rows.
pub(crate) const CSV: Argument = Argument {
    name: "csv",
    kind: ArgumentKind::Word("CSV"),
    help: "A CSV file of at most 10000 rows under the header name,steps or name,steps,from, or \
        meter,base,tariff,key",
};

/// Which file's rows `import` adds to an office.
pub(crate) fn read<'a>(matches: &ArgMatches<'a>) -> Option<AskWords<'a>>
    ensures { ReadsWhat result (SaysAskWords (codes "import") (argument_rows matches.now)) }
{
    let kind = read_kind(matches)?;
    Some(AskWords::Import(kind, read_csv(matches)?))
}

fn read_kind(matches: &ArgMatches) -> Option<FileKind>
    ensures { ReadsWhat result (IsArgument SaysKind
        (parsed_argument (codes "kind") (argument_rows matches.now))) }
{
    match said::text(matches, "kind")? {
        "tariffs" => Some(FileKind::Tariffs),
        "meters" => Some(FileKind::Meters),
        _ => None,
    }
}

fn read_csv<'a>(matches: &ArgMatches<'a>) -> Option<&'a str>
    ensures { ReadsWhat result (IsArgument SaysText
        (parsed_argument (codes "csv") (argument_rows matches.now))) }
{
    said::text(matches, "csv")
}

//! The options that commands share, each with its reader.
ghost use Rattle.std.specs.Prelude.{codes};
ghost use Rattle.command_line.specs.Said.{IsArgument, IsArgumentOr, IsOptionalArgument, ReadsWhat};
ghost use Rattle.command_line.specs.Said.{argument_rows, parsed_argument};
ghost use Rattle.command_line.specs.Values.{SaysBase, SaysFlag, SaysKey, SaysMeterNo, SaysMoment};
ghost use Rattle.command_line.specs.Values.{SaysDay, SaysOperator, SaysRef, SaysTariff};
ghost use Rattle.command_line.specs.Values.{SaysTender, SaysText, SaysTransform, SaysWait};
ghost use Rattle.command_line.specs.Values.{default_transform, default_wait, no_flag};

use crate::argument::{Argument, ArgumentKind};
use crate::transform::Shipped;
use crate::{said, values};
use clap::ArgMatches;
use office_rules::{MeterNo, Operator, Ref, TariffName};
use sts_fields::{Base, Day, Moment};
use sts_token::read_key;
use tariff::Tender;

/// `--transform`, which is `plain` where it is left out.
pub(crate) const TRANSFORM: Argument = Argument {
    name: "transform",
    kind: ArgumentKind::Optional("NAME"),
    help: "How the meter's tokens are mixed with its key: plain or demo [default: plain]",
};

pub(crate) fn read_transform(matches: &ArgMatches) -> Option<Shipped>
    ensures { ReadsWhat result (IsArgumentOr SaysTransform default_transform
        (parsed_argument (codes "transform") (argument_rows matches.now))) }
{
    match said::text(matches, "transform") {
        Some(word) => Shipped::read(word),
        None => Some(Shipped::Plain),
    }
}

/// `--transform`, of a command that makes and compares no token.
pub(crate) const IGNORED_TRANSFORM: Argument = Argument {
    name: "transform",
    kind: ArgumentKind::Optional("NAME"),
    help: "Ignored, since this command makes no token: plain or demo",
};

/// `--transform`, of a command that tests tokens only where it is given.
pub(crate) const TESTED_TRANSFORM: Argument = Argument {
    name: "transform",
    kind: ArgumentKind::Optional("NAME"),
    help: "Also check that each token was made with its meter's key and this transform: \
        plain or demo",
};

/// The transform that is given, or `None` within where none is.
pub(crate) fn read_tested_transform(matches: &ArgMatches) -> Option<Option<Shipped>>
    ensures { ReadsWhat result (IsOptionalArgument SaysTransform
        (parsed_argument (codes "transform") (argument_rows matches.now))) }
{
    match said::text(matches, "transform") {
        Some(word) => Some(Some(Shipped::read(word)?)),
        None => Some(None),
    }
}

/// `--at`, which may be left out.
pub(crate) const AT: Argument = Argument {
    name: "at",
    kind: ArgumentKind::Optional("SECONDS"),
    help: "The moment in Unix seconds, 725846400 to 4102444799 (1993 to 2099, UTC); \
        default: the computer's clock",
};

/// The moment that is given, or `None` within where none is.
pub(crate) fn read_at(matches: &ArgMatches) -> Option<Option<Moment>>
    ensures { ReadsWhat result (IsOptionalArgument SaysMoment
        (parsed_argument (codes "at") (argument_rows matches.now))) }
{
    match said::text(matches, "at") {
        Some(word) => Some(Some(values::moment(word)?)),
        None => Some(None),
    }
}

/// `--file`.
pub(crate) const FILE: Argument = Argument {
    name: "file",
    kind: ArgumentKind::Needed("FILE"),
    help: "The office's file, created if it does not exist",
};

/// `--file`, of a command that makes no file.
pub(crate) const PRESENT_FILE: Argument = Argument {
    name: "file",
    kind: ArgumentKind::Needed("FILE"),
    help: "The office's file, which has to exist",
};

/// `--file`, of a command that a running desk can be asked too.
pub(crate) const FILE_OR_DESK: Argument = Argument {
    name: "file",
    kind: ArgumentKind::Optional("FILE"),
    help: "The office's file, created if it does not exist",
};

/// The same, of a command that makes no file.
pub(crate) const PRESENT_FILE_OR_DESK: Argument = Argument {
    name: "file",
    kind: ArgumentKind::Optional("FILE"),
    help: "The office's file, which has to exist",
};

pub(crate) fn read_file<'a>(matches: &ArgMatches<'a>) -> Option<&'a str>
    ensures { ReadsWhat result (IsArgument SaysText
        (parsed_argument (codes "file") (argument_rows matches.now))) }
{
    said::text(matches, "file")
}

/// `--wait`, which is 5 where it is left out.
pub(crate) const WAIT: Argument = Argument {
    name: "wait",
    kind: ArgumentKind::Optional("SECONDS"),
    help: "Wait up to this many seconds while another program uses the file, 0 to 3600 \
        [default: 5]",
};

pub(crate) fn read_wait(matches: &ArgMatches) -> Option<u32>
    ensures { ReadsWhat result (IsArgumentOr SaysWait default_wait
        (parsed_argument (codes "wait") (argument_rows matches.now))) }
{
    match said::text(matches, "wait") {
        Some(word) => values::wait(word),
        None => values::wait("5"),
    }
}

/// `--desk`, of a command that a running desk can be asked too.
pub(crate) const DESK: Argument = Argument {
    name: "desk",
    kind: ArgumentKind::Optional("ADDRESS"),
    help: "In place of --file: where a desk runs ('vend serve'), four numbers and a port, e.g. \
        127.0.0.1:8080",
};

/// `--operator`.
pub(crate) const OPERATOR: Argument = Argument {
    name: "operator",
    kind: ArgumentKind::Needed("NAME"),
    help: "The cashier, 1 to 16 ASCII letters or digits",
};

pub(crate) fn read_operator(matches: &ArgMatches) -> Option<Operator>
    ensures { ReadsWhat result (IsArgument SaysOperator
        (parsed_argument (codes "operator") (argument_rows matches.now))) }
{
    Operator::read(said::text(matches, "operator")?.as_bytes())
}

pub(crate) fn read_ref(matches: &ArgMatches) -> Option<Ref>
    ensures { ReadsWhat result (IsArgument SaysRef
        (parsed_argument (codes "ref") (argument_rows matches.now))) }
{
    Ref::read(said::text(matches, "ref")?.as_bytes())
}

/// Whether `--json` is among the words of a command, which need not have it.
pub(crate) fn read_json(matches: &ArgMatches) -> Option<bool>
    ensures { ReadsWhat result (IsArgumentOr SaysFlag no_flag
        (parsed_argument (codes "json") (argument_rows matches.now))) }
{
    match said::text(matches, "json") {
        Some(word) => values::flag(word),
        None => Some(false),
    }
}

/// `--meter`.
pub(crate) const METER: Argument = Argument {
    name: "meter",
    kind: ArgumentKind::Needed("NUMBER"),
    help: "The meter's number, eleven digits of which the last is a Luhn check",
};

pub(crate) fn read_meter(matches: &ArgMatches) -> Option<MeterNo>
    ensures { ReadsWhat result (IsArgument SaysMeterNo
        (parsed_argument (codes "meter") (argument_rows matches.now))) }
{
    MeterNo::read(said::text(matches, "meter")?.as_bytes())
}

/// `--tariff`.
pub(crate) const TARIFF: Argument = Argument {
    name: "tariff",
    kind: ArgumentKind::Needed("NAME"),
    help: "The name of a tariff that the office has, 1 to 32 ASCII letters, digits or hyphens",
};

pub(crate) fn read_tariff(matches: &ArgMatches) -> Option<TariffName>
    ensures { ReadsWhat result (IsArgument SaysTariff
        (parsed_argument (codes "tariff") (argument_rows matches.now))) }
{
    TariffName::read(said::text(matches, "tariff")?.as_bytes())
}

/// `--from`.
pub(crate) const FROM: Argument = Argument {
    name: "from",
    kind: ArgumentKind::Needed("DAY"),
    help: "The day from which the steps hold, as YYYY-MM-DD, 1993-01-01 to 2099-12-31 (UTC)",
};

pub(crate) fn read_from(matches: &ArgMatches) -> Option<Day>
    ensures { ReadsWhat result (IsArgument SaysDay
        (parsed_argument (codes "from") (argument_rows matches.now))) }
{
    values::day(said::text(matches, "from")?)
}

/// `--base`.
pub(crate) const BASE: Argument = Argument {
    name: "base",
    kind: ArgumentKind::Needed("YEAR"),
    help: "The year of the base date that the meter's identifiers count from: 1993, 2014 or 2035",
};

pub(crate) fn read_base(matches: &ArgMatches) -> Option<Base>
    ensures { ReadsWhat result (IsArgument SaysBase
        (parsed_argument (codes "base") (argument_rows matches.now))) }
{
    values::base(said::text(matches, "base")?)
}

/// `--key`.
pub(crate) const KEY: Argument = Argument {
    name: "key",
    kind: ArgumentKind::Needed("KEY"),
    help: "The meter's key, sixteen lower-case hexadecimal digits",
};

pub(crate) fn read_key_of(matches: &ArgMatches) -> Option<u64>
    ensures { ReadsWhat result (IsArgument SaysKey
        (parsed_argument (codes "key") (argument_rows matches.now))) }
{
    read_key(said::text(matches, "key")?.as_bytes())
}

/// The tender of a word or an option `tender`.
pub(crate) fn read_tender(matches: &ArgMatches) -> Option<Tender>
    ensures { ReadsWhat result (IsArgument SaysTender
        (parsed_argument (codes "tender") (argument_rows matches.now))) }
{
    values::tender(said::text(matches, "tender")?)
}

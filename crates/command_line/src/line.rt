ghost use Rattle.std.specs.Prelude.{◌≡◌, List, [], ◌++◌, IfOk, MatchResult, map};
ghost use Rattle.clap.specs.Kinds.{HasKind};
ghost use Rattle.clap.specs.Simple.{Shape, app_of, subcommand_rows_of};
ghost use Rattle.command_line.specs.Description.{shape_of_description};
ghost use Rattle.command_line.specs.Line.{command_in, faults_in, have_place, is_base_option};
ghost use Rattle.command_line.specs.Line.{is_place_option, line_of_commands, meant_by};
ghost use Rattle.command_line.specs.Line.{quotes_office, sells_by_base, vend_line};
ghost use Rattle.sts_fields.specs.Text.{Text};

use crate::commands;
use crate::description::Description;
use clap::{ArgMatches, Command, Error};
use std::alloc::{AllocError, Global};

const ABOUT: &str = "Sells credit tokens for prepayment electricity meters (simulated meters only)";

// What `--version` prints after the program's name: its version (`CHANGELOG.md`), and the format of
// the files that it writes (`docs/OFFICE.md`, "Tables").
const VERSION: &str = "0.3.0 (file format 4)";

const STATUSES: &str = "Exit status: 0 done; 1 refused or failed (standard error says why); \
    2 invalid arguments.\n'vend COMMAND --help' lists the options of a command.";

/// The words of a line as they are meant, the program's own name left out: `sell` right before
/// `--base` means `trial`, and `quote` with `--file` or `--desk` among its options means `offer`.
///
/// # Errors
/// `AllocError` if there is no memory.
pub fn meant<'a>(alloc: Global, words: &[&'a str]) -> Result<Vec<&'a str>, AllocError>
    ensures { IfOk result (λ meant. map (λ w. w.now) meant.items
        ≡ meant_by (map (λ w. w.now) words.now)) }
{
    let mut meant = words.to_vec(alloc)?;
    if sells_by_base(words) {
        meant[0] = "trial";
    } else if quotes_office(words) {
        meant[0] = "offer";
    }
    Ok(meant)
}

// `sell`, and the option `--base` right after it.
fn sells_by_base(words: &[&str]) -> bool
    ensures { result ≡ sells_by_base (map (λ w. w.now) words.now) }
{
    match words {
        [command, next, ..] => *command == "sell" && is_base_option(next),
        _ => false,
    }
}

// `--base`, alone or with its value after `=`.
fn is_base_option(word: &str) -> bool
    ensures { result ≡ is_base_option word.now }
{
    word == "--base" || word.as_bytes().starts_with(b"--base=")
}

// `quote`, with the name of an office behind it.
fn quotes_office(words: &[&str]) -> bool
    ensures { result ≡ quotes_office (map (λ w. w.now) words.now) }
{
    match words {
        [command, rest @ ..] => *command == "quote" && have_place(rest),
        _ => false,
    }
}

// `--file` or `--desk` among the options, which end at `--`.
fn have_place(words: &[&str]) -> bool
    ensures { result ≡ have_place (map (λ w. w.now) words.now) }
{
    match words {
        [] => false,
        [word, rest @ ..] => {
            if *word == "--" {
                false
            } else {
                is_place_option(word) || have_place(rest)
            }
        }
    }
}

// One of them, alone or with its value after `=`.
fn is_place_option(word: &str) -> bool
    ensures { result ≡ is_place_option word.now }
{
    word == "--file"
        || word.as_bytes().starts_with(b"--file=")
        || word == "--desk"
        || word.as_bytes().starts_with(b"--desk=")
}

/// The matches of words as they are meant, or what `clap` says of them.
pub fn parse<'a>(alloc: Global, meant: &'a [&'a str]) -> Result<ArgMatches<'a>, Error>
    ensures { (words : List Text) → map (λ w. w.now) meant.entry.now ≡ meant_by words
        → MatchResult result
        (λ matches. (faults_in words ≡ []) × (subcommand_rows_of matches ≡ command_in words))
        (HasKind (faults_in words)) }
{
    describe(alloc)?.try_get_matches_from(meant)
}

// The whole command line.
fn describe<'a>(alloc: Global) -> Result<Command<'a>, AllocError>
    ensures { IfOk result (λ line. app_of line ≡ vend_line) }
{
    let line = start(alloc)?;
    // In the order in which a shop needs them.
    let line = with(alloc, line, commands::shop())?;
    let line = with(alloc, line, commands::reading())?;
    let line = with(alloc, line, commands::care())?;
    with(alloc, line, commands::officeless())
}

// The line without its commands.
fn start<'a>(alloc: Global) -> Result<Command<'a>, AllocError>
    ensures { IfOk result (λ line. app_of line ≡ line_of_commands []) }
{
    Command::new(alloc, "vend")
        .about(ABOUT)
        .after_help(STATUSES)
        .version(VERSION)
        .no_binary_name(true)
        .subcommand_required(true)
        .arg_required_else_help(true)
        .bin_name("vend")
}

// The line with these commands after those that it has.
fn with<'a>(
    alloc: Global,
    mut line: Command<'a>,
    descriptions: &[Description],
) -> Result<Command<'a>, AllocError>
    ensures { (before : List Shape) → app_of line.entry ≡ line_of_commands before
        → IfOk result (λ line. app_of line
        ≡ line_of_commands (before ++ map shape_of_description descriptions.now)) }
{
    for description in descriptions {
        line = line.subcommand(description.command(alloc)?)?;
    }
    Ok(line)
}

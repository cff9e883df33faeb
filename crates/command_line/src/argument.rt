ghost use Rattle.std.specs.Prelude.{◌≡◌, false};
ghost use Rattle.clap.specs.Walk.{rule_of};
ghost use Rattle.command_line.specs.Description.{rule_of_argument};

use clap::{Arg, ArgAction};
use std::alloc::Global;

/// How an argument is written, with what help calls its value.
#[derive(Clone, Copy)]
pub(crate) enum ArgumentKind {
    /// `--NAME VALUE`, which may be left out.
    Optional(&'static str),
    /// `--NAME VALUE`, which has to be there.
    Needed(&'static str),
    /// `--NAME VALUE`, and which value it has where it is left out.
    Default(&'static str, &'static str),
    /// `--NAME`, which may be left out.
    Flag,
    /// A word at its place.
    Word(&'static str),
    /// One word or more, up to the end.
    Words(&'static str),
}

/// An option or a word of a command.
#[derive(Clone, Copy)]
pub(crate) struct Argument {
    pub name: &'static str,
    pub kind: ArgumentKind,
    pub help: &'static str,
}

impl Argument {
    /// As `clap` has it.
    pub(crate) fn arg<'a>(&self, alloc: Global) -> Arg<'a>
        ensures rule { rule_of result ≡ rule_of_argument self.now }
        ensures own { result.global ≡ false }
    {
        let arg = Arg::new(alloc, self.name).help(self.help);
        match self.kind {
            ArgumentKind::Optional(value) => arg.long(self.name).value_name(value),
            ArgumentKind::Needed(value) => arg.long(self.name).value_name(value).required(true),
            ArgumentKind::Default(value, text) => arg
                .long(self.name)
                .value_name(value)
                .default_value(text),
            ArgumentKind::Flag => arg.long(self.name).action(ArgAction::SetTrue),
            ArgumentKind::Word(value) => arg.value_name(value).required(true),
            ArgumentKind::Words(value) => arg.value_name(value).required(true).num_args(1..),
        }
    }
}

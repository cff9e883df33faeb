ghost use Rattle.std.specs.Prelude.{IfOk};
ghost use Rattle.command_line.specs.Description.{shape_of_description};
ghost use Rattle.command_line.specs.Line.{IsDescribed};

use crate::argument::Argument;
use clap::Command;
use std::alloc::{AllocError, Global};

/// What a command is described by.
#[derive(Clone, Copy)]
pub(crate) struct Description {
    pub name: &'static str,
    /// What it does, in its help.
    pub about: &'static str,
    /// Stands below its options.
    pub example: &'static str,
    /// In the order of its help, and the words in that of the line.
    pub arguments: &'static [Argument],
}

impl Description {
    /// As `clap` has it.
    pub(crate) fn command<'a>(&self, alloc: Global) -> Result<Command<'a>, AllocError>
        ensures { IfOk result (IsDescribed (shape_of_description self.now)) }
    {
        let mut command = Command::new(alloc, self.name)
            .about(self.about)
            .after_help(self.example);
        for argument in self.arguments {
            command = command.arg(argument.arg(alloc))?;
        }
        Ok(command)
    }
}

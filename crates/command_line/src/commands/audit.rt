ghost use Rattle.command_line.specs.Said.{ReadsWhat, argument_rows};

use crate::description::Description;
use crate::options;
use crate::transform::Shipped;
use clap::ArgMatches;

/// What `audit` is asked: whether a file keeps an office.
#[derive(Clone, Copy)]
pub struct AuditWords<'a> {
    /// The file that is looked at. It is not made.
    pub file: &'a str,
    /// For how many seconds it waits while another program has the file, 0 to 3600.
    pub wait: u32,
    /// The transform that each token is tested by; none is tested where it is left out.
    pub transform: Option<Shipped>,
}

/// `audit --file F [--wait S] [--transform T]`.
pub(crate) const COMMAND: Description = Description {
    name: "audit",
    about: "Checks every row of a file, changes none, and prints what the file has, or the first \
        row that breaks a rule",
    example: "Example: vend audit --file office.db",
    arguments: &[
        options::PRESENT_FILE,
        options::WAIT,
        options::TESTED_TRANSFORM,
    ],
};

impl<'a> AuditWords<'a> {
    ghost use Rattle.command_line.specs.Commands.{SaysAudit};

    pub(crate) fn read(matches: &ArgMatches<'a>) -> Option<AuditWords<'a>>
        ensures { ReadsWhat result (SaysAudit (argument_rows matches.now)) }
    {
        Some(AuditWords {
            file: options::read_file(matches)?,
            wait: options::read_wait(matches)?,
            transform: options::read_tested_transform(matches)?,
        })
    }
}

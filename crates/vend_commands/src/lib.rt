//! The commands of the program: what each asks of an office in a file, what is printed of it, and
//! the desk on a port. The words of each are those of `command_line`.
//!
//! `README.md` has the commands in words, and `specs/` has what each prints as definitions.
#![tactic(auto)]

mod commands;
mod print;
mod running;
mod selfcheck;
mod serving;

pub use commands::selfcheck::run_selfcheck;
pub use office_commands::{
    Back, Ended, Follows, LogName, Machine, OfficeFile, Part, Ports, Progress, SaltSource, reopen,
};
pub use running::{Computer, refuse, run, run_over, status};
pub use selfcheck::fault::SelfcheckFault;
pub use selfcheck::{gives_exactly, replies_over_memory};
pub use serving::serve;
pub use vend_ports::{
    CommandEnd, Connection, Door, FileFault, Listening, Loopback, MachineLoopback, PatientReader,
    PatientWriter, ReadsWithin, TextFiles, TrialFault, Watched, WritesWithin, trial,
};

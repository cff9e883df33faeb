//! The commands on an office in a file: what each asks of it, and what is printed of it.
//!
//! `specs/office` says how an office is opened, asked and closed, and `specs/commands` has each
//! command.
#![tactic(auto)]

pub mod commands;
mod office;
mod port;
mod print;

pub use audit::{Follows, Part};
pub use office::opening::{close_office, open_office};
pub use office::reopening::{lost_law, open_again, reopen};
pub use port::ended::{Back, Ended};
pub use port::machine::{MachineFile, machine_file_law};
pub use port::new_log::LogName;
pub use port::openings::EachTry;
pub use port::ports::{Machine, OfficeFile, Ports, SaltSource};
pub use port::progress::{Onlooker, Progress, TerminalProgress};
pub use print::opening::put_opening;

//! The commands: what each does.

pub mod at_file;
pub mod file_audit;
mod import;
mod look_up;
mod report;
mod request;

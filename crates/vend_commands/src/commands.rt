//! The commands that need more than an office in a file.

pub mod selfcheck;
pub mod serve;

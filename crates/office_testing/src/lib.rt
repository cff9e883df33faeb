//! What tests of the office share: the office in tables beside the office over plain lists, which
//! has to answer the same, and its lives in a file.
//!
//! Nothing here has a contract beyond that it returns: a difference comes back as a failed test's
//! message.
#![tactic(auto)]

pub mod both;
pub mod in_file;
pub mod older;

pub use office_lines::{lines, plain, values};

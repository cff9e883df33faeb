//! What tests of every office share: the values of requests by their texts, requests and replies as
//! lines of text, and such lines asked of the office over plain lists.
//!
//! Nothing here has a contract beyond that it returns: a difference comes back as a failed test's
//! message.
#![tactic(auto)]

pub mod lines;
pub mod plain;
pub mod values;

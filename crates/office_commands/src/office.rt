//! An office in a file: opened, asked, looked up in, listed, opened again, and audited.

pub(crate) mod asking;
pub(crate) mod auditing;
pub(crate) mod empty;
pub(crate) mod listing;
pub(crate) mod looking;
pub(crate) mod meeting;
pub(crate) mod met;
pub(crate) mod opening;
pub(crate) mod paper;
pub(crate) mod reopening;

//! Each text and file against the examples of `docs/TEXTS.md`, and writers that fail.

mod examples;
mod export;
mod import;
mod output;
mod printed;
mod receipt;
mod report;

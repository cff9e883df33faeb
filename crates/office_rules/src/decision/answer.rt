use crate::decision::Refusal;
use crate::office::{Sale, Sales, Shift};

/// What the office answers to a request that it grants.
#[derive(Debug, Drop)]
pub enum Answer {
    Done,
    /// How many rows of an import were new.
    Imported(u32),
    /// How many lists of steps were withdrawn, 0 or 1.
    Withdrawn(u32),
    /// The number of the shift that was opened.
    Opened(u32),
    /// The number of the shift that was closed.
    Closed(u32),
    /// A new sale, or the first one of a repeated ref.
    Sold(Sale),
    Reprinted(Sale),
    /// A shift with its sales by number.
    Report(Shift, Sales),
}

/// What the office answers.
pub type Reply = Result<Answer, Refusal>;

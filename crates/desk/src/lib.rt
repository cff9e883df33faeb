//! The desk of a vending office: it serves the office to the messages of a connection.
//! `desk_messages` has what they ask and what is replied to them, and `conversation` the messages
//! themselves.
#![tactic(auto)]

mod along;
mod desk;
mod serving;

pub use along::{conversation_law, desk_law};
pub use asks::{Ask, AskKind, Csv, Lookup};
pub use books::{
    Found, Health, LaterSteps, ListedMeter, ListedShift, ListedTariff, MeterSummary, Quote, Totals,
};
pub use conversation::{
    Clock, End, Line, MachineClock, MessageFault, Method, Next, Received, Script, TimeSource,
    Untold, next_of,
};
pub use desk::Desk;
pub use desk_messages::{
    DeskFault, Form, Meaning, Named, Outcome, Routes, date_law, day_text_law, found_json, head_law,
    http_date, json_law, lookup_form, meaning_law, moment_given, put_day, put_steps, read_rows,
    reply_bytes, reply_to,
};

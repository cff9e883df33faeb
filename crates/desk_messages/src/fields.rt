//! The names of the fields of each record that a desk replies with, in the order of their bytes. A
//! desk writes a record by them, and its client reads it by the same.

/// What a shift is told by that was opened or closed.
pub const SHIFT: [&str; 1] = ["shift"];

/// How many rows an import added.
pub const ADDED: [&str; 1] = ["added"];

/// How many lists of steps were withdrawn.
pub const WITHDRAWN: [&str; 1] = ["withdrawn"];

/// A fault of the desk.
pub const FAULT: [&str; 1] = ["error"];

/// A refusal of the office,
pub const REFUSAL: [&str; 2] = ["error", "refusal"];

/// and that of a row.
pub const ROW_REFUSAL: [&str; 4] = ["cause", "error", "refusal", "row"];

pub const SALE: [&str; 13] = [
    "base", "change", "meter", "moment", "number", "operator", "price", "ref", "shift", "tender",
    "tenths", "tid", "token",
];

/// That the office answers.
pub const HEALTH: [&str; 4] = ["format", "last_moment", "last_write", "sales"];

pub const METER: [&str; 5] = ["base", "meter", "sale", "tariff", "tenths"];

pub const QUOTE: [&str; 6] = ["change", "meter", "price", "tariff", "tender", "tenths"];

/// The running totals of a shift.
pub const TOTALS: [&str; 4] = ["cash", "sales", "shift", "tenths"];

/// A meter of a list.
pub const LISTED_METER: [&str; 3] = ["base", "meter", "tariff"];

/// A shift of a list.
pub const LISTED_SHIFT: [&str; 7] = [
    "cash", "closed", "number", "opened", "operator", "sales", "tenths",
];

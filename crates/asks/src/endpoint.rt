use crate::value::ValueKind;
use conversation::Method;

/// A value of a target: it stands behind a slash and these words, up to the next slash or the end.
#[derive(Clone, Copy, Debug)]
pub struct Slot {
    pub front: &'static str,
    pub kind: ValueKind,
}

/// What the body of a message has to be.
#[derive(Clone, Copy, Debug)]
pub enum Body {
    /// It is not looked at.
    Unread,
    /// A file of rows.
    Rows,
    /// An object of JSON with these members and no others, in whatever order: each name has a value
    /// of the kind at its place, and where there is one name more, that has the text of steps.
    Object(&'static [&'static str], &'static [ValueKind]),
}

/// What is told where an ask is granted.
#[derive(Clone, Copy, Debug, PartialEq, Eq, Hash)]
pub enum Grants {
    /// That it was done.
    Done,
    /// How many rows of an import were new.
    Imported,
    /// How many lists of steps were withdrawn.
    Withdrawn,
    /// The number of a shift.
    Shift,
    Sale,
    /// A text to be printed: a receipt or a report.
    Paper,
    Health,
    Meter,
    Quote,
    Totals,
    Tariffs,
    Meters,
    Shifts,
    Sales,
}

/// How a kind of ask is asked, and what it grants.
#[derive(Clone, Copy, Debug)]
pub struct Endpoint {
    pub method: Method,
    /// The values of its target, in their order.
    pub slots: &'static [Slot],
    /// What stands behind them and a slash, or nothing.
    pub end: &'static str,
    pub body: Body,
    pub grants: Grants,
}

//! The short values of asks.

ghost use Rattle.std.specs.Prelude.{◌≡◌, ◌≢◌, ℕ, List, IsTrue, MatchOption};
ghost use Rattle.records.specs.Cell.{held, number, text};
ghost use Rattle.records.specs.Front.{IsFound};
ghost use Rattle.asks.specs.Target.{kind_name};
ghost use Rattle.asks.specs.Value.{IsToldBy, StandsIn};

use crate::texts::days_law;
use office_rules::{GREATEST_COUNT, MeterNo, Operator, Ref, TariffName};
use records::{Cell, read_number};
use sts_fields::{Base, Day};
use sts_token::read_key;
use tariff::Tender;

// The greatest number of a shift or a sale.
const GREATEST: u64 = GREATEST_COUNT as u64;

/// The kinds of the values that targets and bodies have.
#[derive(Clone, Copy, Debug, PartialEq, Eq, Hash)]
pub enum ValueKind {
    /// A base date, by its year.
    Base,
    /// A day, as YYYY-MM-DD.
    Day,
    /// A key, in sixteen hexadecimal digits.
    Key,
    Meter,
    /// The number of a shift or a sale, 1 to 10^9.
    Number,
    Operator,
    Ref,
    /// The number after which a page begins, 0 to 10^9.
    Start,
    Tariff,
    /// A tender, in cents.
    Tender,
}

impl ValueKind {
    // Its name, as patterns have it.
    pub(crate) fn name(self) -> &'static str
        ensures { result.now ≡ kind_name self }
    {
        match self {
            ValueKind::Base => "base",
            ValueKind::Day => "day",
            ValueKind::Key => "key",
            ValueKind::Meter => "meter",
            ValueKind::Number => "number",
            ValueKind::Operator => "operator",
            ValueKind::Ref => "ref",
            ValueKind::Start => "start",
            ValueKind::Tariff => "tariff",
            ValueKind::Tender => "tender",
        }
    }
}

/// A value of a target or a body.
#[derive(Clone, Copy, Debug, PartialEq, Eq)]
pub enum Value {
    Base(Base),
    Day(Day),
    Key(u64),
    Meter(MeterNo),
    Number(u32),
    Operator(Operator),
    Ref(Ref),
    Start(u32),
    Tariff(TariffName),
    Tender(Tender),
}

impl Value {
    /// The value of a kind that a cell tells.
    pub fn of_cell(kind: ValueKind, cell: &Cell<'_>) -> Option<Value>
        ensures { IsFound (IsToldBy kind (held cell.now)) result }
    {
        match cell {
            Cell::Number(number) => of_number(kind, *number),
            Cell::Text(bytes) => of_text(kind, bytes),
            Cell::Nothing => None,
        }
    }

    /// The value of a kind that stands in a target.
    pub fn of_piece(kind: ValueKind, piece: &[u8]) -> Option<Value>
        ensures { IsFound (StandsIn kind piece.now) result }
    {
        match kind {
            ValueKind::Base | ValueKind::Number | ValueKind::Start | ValueKind::Tender => {
                match read_number(piece) {
                    Some(number) => of_number(kind, number),
                    None => None,
                }
            }
            ValueKind::Day
            | ValueKind::Key
            | ValueKind::Meter
            | ValueKind::Operator
            | ValueKind::Ref
            | ValueKind::Tariff => of_text(kind, piece),
        }
    }
}

// The value of a kind that a number tells.
fn of_number(kind: ValueKind, n: u64) -> Option<Value>
    ensures { IsFound (IsToldBy kind (number n)) result }
{
    match kind {
        ValueKind::Base => match n {
            1993 => Some(Value::Base(Base::Y1993)),
            2014 => Some(Value::Base(Base::Y2014)),
            2035 => Some(Value::Base(Base::Y2035)),
            _ => None,
        },
        ValueKind::Number if (1..=GREATEST).contains(&n) => Some(Value::Number(n as u32)),
        ValueKind::Start if n <= GREATEST => Some(Value::Start(n as u32)),
        ValueKind::Tender => match Tender::read(n) {
            Some(tender) => Some(Value::Tender(tender)),
            None => None,
        },
        _ => None,
    }
}

// The value of a kind that a text tells.
fn of_text(kind: ValueKind, bytes: &[u8]) -> Option<Value>
    ensures { IsFound (IsToldBy kind (text bytes.now)) result }
{
    days_law();
    match kind {
        ValueKind::Day => match Day::of_text(bytes) {
            Ok(day) => Some(Value::Day(day)),
            Err(_) => None,
        },
        ValueKind::Key => match read_key(bytes) {
            Some(key) => Some(Value::Key(key)),
            None => None,
        },
        ValueKind::Meter => match MeterNo::read(bytes) {
            Some(meter) => Some(Value::Meter(meter)),
            None => None,
        },
        ValueKind::Operator => match Operator::read(bytes) {
            Some(operator) => Some(Value::Operator(operator)),
            None => None,
        },
        ValueKind::Ref => match Ref::read(bytes) {
            Some(order_ref) => Some(Value::Ref(order_ref)),
            None => None,
        },
        ValueKind::Tariff => match TariffName::read(bytes) {
            Some(name) => Some(Value::Tariff(name)),
            None => None,
        },
        ValueKind::Base | ValueKind::Number | ValueKind::Start | ValueKind::Tender => None,
    }
}

impl Default for Value {
    ghost use Rattle.std.specs.Prelude.{◌≡◌};
    ghost use Rattle.asks.specs.declared.value.Value.TheVariants.{Start};

    ghost is_default = { λ value. value ≡ Start 0 };

    /// What fills a place that no value has yet.
    fn default() -> Value {
        Value::Start(0)
    }
}

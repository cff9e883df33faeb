use crate::table_name::TableName;
use office_rules::{MeterNo, TariffName};
use sqlite::{Error, Row};
use sts_fields::{Base, Day};

/// The rules that a row may break. `docs/AUDIT.md`, "What a rule means", has them in words.
#[derive(Clone, Copy, Debug, PartialEq, Eq)]
pub enum Rule {
    /// The values of its columns are those of no record.
    Value,
    /// The month is not that of the moment.
    Month,
    /// An earlier row of the table has its key: a tariff's name, a place of a tariff and day, a
    /// meter's number, a meter's base, an identifier of a meter under a base, an operator's ref, or
    /// the key of a row of totals.
    Twice,
    /// It names a tariff or a shift that is not there; or it is itself not there, a row of totals.
    Missing,
    /// No row is at the place before it, or the steps are none that a tariff may have.
    Steps,
    /// The base is none that the meter had, or a later one than its present base; or a sale to the
    /// meter before was made under a later one.
    Base,
    /// In the order of the numbers, the row at its place has another number.
    Gap,
    /// The shift is open beside an earlier one of its operator.
    TwoOpen,
    /// A row of totals has a key of no sale; or there are too many rows.
    Surplus,
    /// A row of totals tells another value than the sales.
    Total,
    /// The sale's operator is not that of its shift.
    Operator,
    /// The shift was opened while an earlier one of its operator was open; or a sale before this
    /// one was made in the operator's next shift, or in one that was opened after that.
    Order,
    /// The sale's identifier is not the fresh one of its moment, after those before it.
    Identifier,
    /// The tenths and the price are not what the tender buys by steps that a tariff may have had on
    /// the day.
    Price,
    /// The sale's digits are those of no token of class 0.
    Token,
}

/// Which row of a table it is: its key, as the file has it.
#[derive(Debug, Drop)]
pub enum RowKey {
    /// The one of this number, from 1: a shift, a sale, or the totals of a shift.
    Number(u64),
    /// The tariff of this name.
    Tariff(TariffName),
    /// The step of a tariff at this place, from 0.
    Step(TariffName, u32),
    /// The step of a tariff from a day on, at this place, from 0.
    DatedStep(TariffName, Day, u32),
    /// The meter of this number.
    Meter(MeterNo),
    /// The one of a meter and a base.
    Base(MeterNo, Base),
    /// The one of a meter and a month.
    Month(MeterNo, u32),
    /// One whose values are those of no record, by all its columns, in the order of the table.
    Columns(Row),
}

/// A row that no office has.
#[derive(Debug, Drop)]
pub struct Finding {
    /// The table that has it, or that lacks it.
    pub table: TableName,
    /// The rule that it breaks.
    pub rule: Rule,
    /// Which one it is.
    pub row: RowKey,
}

/// Why a database is not said to stand for an office.
#[derive(Debug, Drop)]
pub enum AuditFault {
    /// A row is no office's.
    Found(Finding),
    /// The tables are of no format, or `about` tells another one.
    NoOffice,
    /// The database refused or failed, or there was no memory.
    Failed(Error),
}

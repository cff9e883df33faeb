use std::fmt;

/// Why a row of an import is refused.
///
/// The reader of a file gives the first four, and the office the other three.
#[derive(Clone, Copy, Debug, PartialEq, Eq, Hash)]
pub enum RowCause {
    /// Row 0 is not the header, or there is none.
    Header,
    /// The row has another number of fields.
    Columns,
    /// The field of this number, from 1 on, is the first one outside its rule.
    Field(u8),
    /// The row is one more than the greatest number of rows.
    TooManyRows,
    /// Something else is there under the row's name or number, or its name and day.
    Differs,
    /// There is no tariff of the name that the row's meter has, or that its steps are for.
    NoTariff,
    /// The day of the row's steps is not after the day of the import.
    DayPast,
}

impl fmt::Display for RowCause {
    ghost use Rattle.std.specs.Prelude.{Some};
    ghost use Rattle.office_rules.specs.Decision.RowCauses.{cause_text};

    ghost output = { λ cause. Some (cause_text cause) };

    fn fmt<W: fmt::Write>(&self, f: &mut fmt::Formatter<W>) -> fmt::Result {
        match self {
            RowCause::Header => write!(f, "Header"),
            RowCause::Columns => write!(f, "Columns"),
            RowCause::Field(number) => write!(f, "Field {number}"),
            RowCause::TooManyRows => write!(f, "TooManyRows"),
            RowCause::Differs => write!(f, "Differs"),
            RowCause::NoTariff => write!(f, "NoTariff"),
            RowCause::DayPast => write!(f, "DayPast"),
        }
    }
}

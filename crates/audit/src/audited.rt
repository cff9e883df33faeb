//! What an audit counts.

ghost use Rattle.std.specs.Prelude.{◌≡◌};
ghost use Rattle.audit.specs.Audited.{counted, no_tables};

use audit_rows::OfficeRows;

/// What an audit counted, and the format of the tables.
#[derive(Clone, Copy, Debug, PartialEq, Eq)]
pub struct Audited {
    /// The number of the format, from 0, which has no tables.
    pub format: u32,
    /// How many tariffs there are.
    pub tariffs: usize,
    /// How many meters.
    pub meters: usize,
    /// How many shifts.
    pub shifts: usize,
    /// How many sales.
    pub sales: usize,
}

// What is counted where there are no tables.
pub(crate) fn no_tables() -> Audited
    ensures { result ≡ no_tables }
{
    Audited {
        format: 0,
        tariffs: 0,
        meters: 0,
        shifts: 0,
        sales: 0,
    }
}

// What is counted of the rows of a format.
pub(crate) fn counted(format: u32, rows: &OfficeRows) -> Audited
    ensures { result ≡ counted format rows.now }
{
    Audited {
        format,
        tariffs: rows.tariffs.len(),
        meters: rows.meters.len(),
        shifts: rows.shifts.len(),
        sales: rows.sales.len(),
    }
}

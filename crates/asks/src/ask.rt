use crate::csv::Csv;
use crate::lookup::Lookup;
use office_rules::Request;
use papers::FileKind;
use tariff::Steps;

/// What an office is asked (`docs/DESK.md`). Numbers of shifts and sales are 1 to 10^9.
#[derive(Debug, Drop)]
pub enum Ask<'a> {
    /// To add the rows of a file.
    Import(FileKind, Csv<'a>),
    /// Any other request. The import of rows that were read is none.
    Do(Request),
    /// The receipt of the sale of a number, on paper.
    Receipt(u32),
    /// To look something up.
    Look(Lookup),
}

/// What an ask has beside its short values.
#[derive(Debug, Drop)]
pub enum Bulk<'a> {
    Nothing,
    /// The rows of an import.
    Rows(Csv<'a>),
    /// The steps of a tariff.
    Steps(Steps),
}

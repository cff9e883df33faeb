use crate::decision::RowCause;

/// What kind of reason a refusal has (`docs/OFFICE.md`, "Refusals").
///
/// The desk's status and the words of a refusal follow from it.
#[derive(Clone, Copy, Debug, PartialEq, Eq, Hash)]
pub enum Category {
    /// What the request names is not there.
    Missing,
    /// The office forbids it as it stands.
    Forbidden,
    /// It cannot be done as it was asked.
    Unfit,
    /// Nor can an import with this row, by its number, for this cause.
    UnfitRow(u32, RowCause),
    /// The office is unable to answer.
    Unable,
}

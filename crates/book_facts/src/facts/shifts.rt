//! What requests on shifts look at.

ghost use Rattle.std.specs.Prelude.{◌≡◌};
ghost use Rattle.sqlite.specs.State.{IsUnchanged};
ghost use Rattle.one_table.specs.Over.{Over};
ghost use Rattle.office_rules.specs.Decision.Facts.{AreOpeningFacts, report_of};
ghost use Rattle.office_rules.specs.Office.Lookup.{open_shift};
ghost use Rattle.book_tables.specs.reading.Questions.{the_open_shift};
ghost use Rattle.book_tables.specs.reading.Seen.{HasSpoilt, ShowsFirst};
ghost use Rattle.book_states.specs.FactsSeen.{AreOpeningFactsSeen, IsReportSeen};
ghost use Rattle.book_states.specs.Spoilt.{IsOpeningSpoilt, IsReportSpoilt};
ghost use Rattle.book_facts.specs.Looking.{LooksUp};
ghost use Rattle.book_facts.specs.Totals.{AreTotalsSeen, AreTotalsSpoilt, shift_totals};

use book_tables::reading::{sale_lists, shifts, totals};
use book_tables::{TableError, Totals};
use office_rules::{Facts, Operator, Sales};
use sqlite::{Alter, Connection};
use std::alloc::Global;

/// What OpenShift looks at: the shifts are counted only where the operator has no open one.
pub(crate) fn opening_facts<S: Alter>(
    conn: &mut Connection<S>,
    operator: &Operator,
) -> Result<Facts, TableError>
    ensures { Over S.Store conn (λ old new. LooksUp IsUnchanged
        (λ o. AreOpeningFacts o operator.now) (AreOpeningFactsSeen operator.now)
        (IsOpeningSpoilt operator.now) old new result) }
{
    let open_shift = shifts::open_shift(conn, operator)?;
    if open_shift.is_some() {
        return Ok(Facts {
            open_shift,
            ..Facts::none()
        });
    }
    let last = shifts::last_shift_number(conn)?;
    Ok(Facts {
        open_shift,
        shift_count: u64::from(last.unwrap_or(0)),
        ..Facts::none()
    })
}

/// What CloseShift looks at.
pub(crate) fn closing_facts<S: Alter>(
    conn: &mut Connection<S>,
    operator: &Operator,
) -> Result<Facts, TableError>
    ensures { Over S.Store conn (λ old new. LooksUp IsUnchanged
        (λ o f. f.open_shift ≡ open_shift o operator.now) (λ db f. ShowsFirst
        (the_open_shift operator.now) db f.open_shift) (HasSpoilt
        (the_open_shift operator.now)) old new result) }
{
    let open_shift = shifts::open_shift(conn, operator)?;
    Ok(Facts {
        open_shift,
        ..Facts::none()
    })
}

/// What ShiftReport looks at: the sales only where there is a shift of the number.
pub(crate) fn report_facts<S: Alter>(
    alloc: Global,
    conn: &mut Connection<S>,
    number: u32,
) -> Result<Facts, TableError>
    ensures { Over S.Store conn (λ old new. LooksUp IsUnchanged
        (λ o f. f.report ≡ report_of o number) (λ db f. IsReportSeen number db f.report)
        (IsReportSpoilt number) old new result) }
{
    let found = shifts::shift_numbered(conn, number)?;
    let Some(shift) = found else {
        return Ok(Facts::none());
    };
    let sales = sale_lists::sales_of_shift(alloc, conn, number)?;
    Ok(Facts {
        report: Some((shift, Sales::of(sales))),
        ..Facts::none()
    })
}

/// The totals of the shift of a number: of its sales only where there is such a shift.
pub(crate) fn totals_of<S: Alter>(
    conn: &mut Connection<S>,
    number: u32,
) -> Result<Option<Totals>, TableError>
    ensures { Over S.Store conn (λ old new. LooksUp IsUnchanged
        (λ o found. found ≡ shift_totals o number) (AreTotalsSeen number)
        (AreTotalsSpoilt number) old new result) }
{
    let found = shifts::shift_numbered(conn, number)?;
    if found.is_none() {
        return Ok(None);
    }
    let totals = totals::totals_of_shift(conn, number)?;
    Ok(Some(totals))
}

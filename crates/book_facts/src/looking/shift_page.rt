//! A page of the shifts, with their totals.

ghost use Rattle.one_table.specs.Over.{Over};
ghost use Rattle.book_states.specs.Same.{IsSame};
ghost use Rattle.book_facts.specs.Lookups.{FindsShifts};
ghost use Rattle.book_facts.specs.Looking.{LooksUpByRules};
ghost use Rattle.book_facts.specs.LookupsSeen.{AreShiftsSpoilt, FindsShiftsSeen};

use book_lists::shifts_after;
use book_states::{Found, ListedShift};
use book_tables::TableError;
use book_tables::reading::totals;
use office_rules::Refusal;
use sqlite::{Alter, Connection};
use std::alloc::{AllocError, Global};

/// A page of the shifts after a number, each with its running totals.
pub(crate) fn shift_page<S: Alter>(
    alloc: Global,
    conn: &mut Connection<S>,
    after: u32,
) -> Result<Result<Found, Refusal>, TableError>
    ensures { Over S.Store conn (λ old new. LooksUpByRules IsSame (λ o. FindsShifts o after)
        (FindsShiftsSeen after) (AreShiftsSpoilt after) old new result) }
{
    let shifts = shifts_after(alloc, conn, after)?;
    let mut listed = Vec::new(alloc);
    for shift in &shifts {
        let totals = totals::totals_of_shift(conn, shift.number)?;
        let more = ListedShift {
            shift: *shift,
            totals,
        };
        listed.push(more).map_err(AllocError::from)?;
    }
    Ok(Ok(Found::Shifts(listed)))
}

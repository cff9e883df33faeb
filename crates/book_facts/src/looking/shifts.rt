//! The totals of a shift.

ghost use Rattle.std.specs.Prelude.{◌≡◌, IfErr};
ghost use Rattle.sqlite.specs.State.{IsUnchanged};
ghost use Rattle.one_table.specs.Over.{Over};
ghost use Rattle.book_facts.specs.Lookups.{IsOfRules, totals_found};
ghost use Rattle.book_facts.specs.Totals.{AreTotalsSpoilt, shift_totals};
ghost use Rattle.book_facts.specs.Looking.{LooksUpByRules};
ghost use Rattle.book_facts.specs.LookupsSeen.{AreTotalsFoundSeen};

use crate::facts::shifts::totals_of;
use book_states::Found;
use book_tables::{TableError, Totals};
use office_rules::Refusal;
use sqlite::{Alter, Connection};

/// The totals of the shift of a number.
pub(crate) fn totals_under<S: Alter>(
    conn: &mut Connection<S>,
    number: u32,
) -> Result<Result<Found, Refusal>, TableError>
    ensures { Over S.Store conn (λ old new. LooksUpByRules IsUnchanged
        (λ o found. found ≡ totals_found number (shift_totals o number))
        (AreTotalsFoundSeen number) (AreTotalsSpoilt number) old new result) }
{
    let there = totals_of(conn, number)?;
    Ok(totals_or_none(number, there))
}

fn totals_or_none(number: u32, there: Option<Totals>) -> Result<Found, Refusal>
    ensures value { result ≡ totals_found number there }
    ensures rules { IfErr result IsOfRules }
{
    match there {
        Some(totals) => Ok(Found::ShiftTotals(number, totals)),
        None => Err(Refusal::NoSuchShift),
    }
}

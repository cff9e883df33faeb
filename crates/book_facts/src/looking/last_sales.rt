//! The last sale to a meter.

ghost use Rattle.std.specs.Prelude.{◌≡◌};
ghost use Rattle.sqlite.specs.State.{IsUnchanged};
ghost use Rattle.one_table.specs.Over.{Over};
ghost use Rattle.book_facts.specs.Lookups.{last_found, last_sale, last_under};
ghost use Rattle.book_facts.specs.Looking.{LooksUp, LooksUpByRules};
ghost use Rattle.book_facts.specs.LookupsSeen.{IsLastFoundSeen, IsLastFoundSpoilt, IsLastSaleSeen};
ghost use Rattle.book_facts.specs.LookupsSeen.{IsLastSaleSpoilt, IsLastUnderSeen};
ghost use Rattle.book_facts.specs.LookupsSeen.{IsLastUnderSpoilt};

use crate::looking::sales::sale_or_none;
use book_states::Found;
use book_tables::reading::{meters, sales, totals};
use book_tables::{TableError, members_law};
use office_rules::{MeterNo, Refusal, Sale, store_law};
use sqlite::{Alter, Connection};
use sts_fields::Base;

/// The last sale to the meter of a number, where there is one of it.
pub(crate) fn last_sale_of<S: Alter>(
    conn: &mut Connection<S>,
    number: &MeterNo,
) -> Result<Result<Found, Refusal>, TableError>
    ensures { Over S.Store conn (λ old new. LooksUpByRules IsUnchanged
        (λ o found. found ≡ last_found (o.meters number.now) (last_sale o number.now))
        (IsLastFoundSeen number.now) (IsLastFoundSpoilt number.now) old new result) }
{
    members_law();
    let there = meters::meter_numbered(conn, number)?;
    if there.is_none() {
        return Ok(Err(Refusal::NoMeter));
    }
    let last = last_sale(conn, number)?;
    Ok(sale_or_none(last))
}

/// The last sale to a meter: under the latest base that it has one under.
pub(crate) fn last_sale<S: Alter>(
    conn: &mut Connection<S>,
    number: &MeterNo,
) -> Result<Option<Sale>, TableError>
    ensures { Over S.Store conn (λ old new. LooksUp IsUnchanged
        (λ o found. found ≡ last_sale o number.now) (IsLastSaleSeen number.now)
        (IsLastSaleSpoilt number.now) old new result) }
{
    let latest = last_under(conn, number, Base::Y2035)?;
    if latest.is_some() {
        return Ok(latest);
    }
    let before = last_under(conn, number, Base::Y2014)?;
    if before.is_some() {
        return Ok(before);
    }
    last_under(conn, number, Base::Y1993)
}

// The last sale to a meter under a base: that of the greatest identifier.
fn last_under<S: Alter>(
    conn: &mut Connection<S>,
    number: &MeterNo,
    base: Base,
) -> Result<Option<Sale>, TableError>
    ensures { Over S.Store conn (λ old new. LooksUp IsUnchanged
        (λ o found. found ≡ last_under o number.now base) (IsLastUnderSeen number.now base)
        (IsLastUnderSpoilt number.now base) old new result) }
{
    store_law();
    let last = totals::greatest_tid(conn, number, base)?;
    let Some(tid) = last else {
        return Ok(None);
    };
    let there = sales::sale_of_tid(conn, number, base, tid)?;
    let Some(sale) = there else {
        // The greatest identifier of an office is that of one of its sales.
        return Err(TableError::RowOfNoOffice);
    };
    Ok(Some(sale))
}

//! What a sale looks at of its meter.

ghost use Rattle.std.specs.Prelude.{◌<◌, ◌≡◌};
ghost use Rattle.sqlite.specs.State.{IsUnchanged};
ghost use Rattle.one_table.specs.Over.{Over};
ghost use Rattle.sts_fields.specs.Calendar.{month_at};
ghost use Rattle.office_rules.specs.Decision.{account_of};
ghost use Rattle.office_rules.specs.Office.Lookup.{greatest_of, prior, used};
ghost use Rattle.book_states.specs.FactsSeen.{IsAccountSeen, IsSoldSeen};
ghost use Rattle.book_states.specs.Spoilt.{IsAccountSpoilt, IsSoldSpoilt};
ghost use Rattle.book_facts.specs.Looking.{LooksUp};

use crate::facts::steps::steps_on;
use book_tables::reading::{meters, totals};
use book_tables::{TableError, members_law};
use office_rules::{Meter, MeterAccount, MeterNo, Moment, store_law};
use sqlite::{Alter, Connection};
use std::alloc::Global;
use sts_fields::{LAST_TID, day_of, month_of};
use tariff::{MAX_PRIOR, Steps};

/// What a sale at a moment looks at of the meter of a number.
#[inline(never)]
pub(crate) fn account_numbered<S: Alter>(
    alloc: Global,
    conn: &mut Connection<S>,
    number: &MeterNo,
    moment: Moment,
) -> Result<Option<MeterAccount>, TableError>
    ensures { Over S.Store conn (λ old new. LooksUp IsUnchanged
        (λ o found. found ≡ account_of o number.now moment) (IsAccountSeen number.now moment)
        (IsAccountSpoilt number.now moment) old new result) }
{
    members_law();
    let there = meters::meter_numbered(conn, number)?;
    let Some(meter) = there else {
        return Ok(None);
    };
    let found = steps_on(alloc, conn, &meter.tariff, day_of(moment))?;
    let Some(steps) = found else {
        // An office has the tariff of each of its meters.
        return Err(TableError::RowOfNoOffice);
    };
    let account = account_at(conn, number, moment, meter, steps)?;
    Ok(Some(account))
}

// What was sold to the meter of a number, as a sale at a moment looks at it.
fn account_at<S: Alter>(
    conn: &mut Connection<S>,
    number: &MeterNo,
    moment: Moment,
    meter: Meter,
    steps: Steps,
) -> Result<MeterAccount, TableError>
    ensures { Over S.Store conn (λ old new. LooksUp IsUnchanged
        (λ o b. b ≡ record {
          meter = meter;
          steps = steps;
          last = greatest_of
              (used o number.now meter.base);
          prior = prior o number.now (month_at moment);
        }) (λ db b.
        (b.meter ≡ meter) × (b.steps ≡ steps) × IsSoldSeen number.now moment db b)
        (IsSoldSpoilt number.now moment meter.base) old new result) }
{
    store_law();
    let last = totals::greatest_tid(conn, number, meter.base)?;
    let month = month_of(moment).unwrap();
    let prior = totals::tenths_in_month(conn, number, month)?;
    if last.unwrap_or(0) > LAST_TID || prior > MAX_PRIOR {
        // What an office sold to a meter is within both.
        return Err(TableError::RowOfNoOffice);
    }
    Ok(MeterAccount {
        meter,
        steps,
        last,
        prior,
    })
}

//! The steps that a tariff has from later days on.

ghost use Rattle.sqlite.specs.State.{IsUnchanged};
ghost use Rattle.one_table.specs.Over.{Over};
ghost use Rattle.book_facts.specs.Lookups.{AreLaterSteps};
ghost use Rattle.book_facts.specs.Looking.{LooksUp};
ghost use Rattle.book_facts.specs.LookupsSeen.{AreLaterSeen, AreLaterSpoilt};

use book_lists::first_day_after;
use book_states::LaterSteps;
use book_tables::TableError;
use book_tables::reading::dated_steps::steps_from;
use office_rules::TariffName;
use sqlite::{Alter, Connection};
use std::alloc::{AllocError, Global};
use sts_fields::Day;

/// The steps that the tariff of a name has from each day after a day on, by day.
pub(crate) fn later_steps<S: Alter>(
    alloc: Global,
    conn: &mut Connection<S>,
    name: &TariffName,
    day: Day,
) -> Result<Vec<LaterSteps>, TableError>
    ensures { Over S.Store conn (λ old new. LooksUp IsUnchanged (λ o later. AreLaterSteps
        (o.dated_steps name.now) day later.items) (λ db later. AreLaterSeen name.now day db
        later.items) (AreLaterSpoilt name.now day) old new result) }
{
    let mut later = Vec::new(alloc);
    let mut last = day;
    while let Some(from) = first_day_after(conn, name, last)? {
        let found = steps_from(alloc, conn, name, from)?;
        let Some(steps) = found else {
            return Err(TableError::RowOfNoOffice);
        };
        // The rows of an office have a later day here. By this test the loop ends over others too.
        if from <= last {
            return Err(TableError::RowOfNoOffice);
        }
        later
            .push(LaterSteps { from, steps })
            .map_err(AllocError::from)?;
        last = from;
    }
    Ok(later)
}

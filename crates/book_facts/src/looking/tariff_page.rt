//! A page of the tariffs, with their steps.

ghost use Rattle.std.specs.Prelude.{◌≡◌, [], unwrap_or};
ghost use Rattle.sqlite.specs.State.{IsUnchanged};
ghost use Rattle.one_table.specs.Over.{Over};
ghost use Rattle.sts_fields.specs.Day.{day_at};
ghost use Rattle.book_states.specs.Same.{IsSame};
ghost use Rattle.book_facts.specs.Listing.{TellsOf};
ghost use Rattle.book_facts.specs.Lookups.{FindsTariffs};
ghost use Rattle.book_facts.specs.Looking.{LooksUp, LooksUpByRules};
ghost use Rattle.book_facts.specs.LookupsSeen.{AreTariffsSpoilt, FindsTariffsSeen};
ghost use Rattle.book_facts.specs.LookupsSeen.{IsTariffNamedSeen, IsTariffNamedSpoilt};

use crate::facts::steps::steps_on;
use crate::looking::later_steps::later_steps;
use book_lists::tariffs_after;
use book_states::{Found, ListedTariff};
use book_tables::TableError;
use office_rules::{Moment, Refusal, TariffName};
use sqlite::{Alter, Connection};
use std::alloc::{AllocError, Global};
use sts_fields::{Day, day_of};

/// A page of the tariffs after a name, or of all: each with its steps on the day of the moment, and
/// with those of later days.
pub(crate) fn tariff_page<S: Alter>(
    alloc: Global,
    conn: &mut Connection<S>,
    moment: Moment,
    after: &Option<TariffName>,
) -> Result<Result<Found, Refusal>, TableError>
    ensures { Over S.Store conn (λ old new. LooksUpByRules IsSame (λ o. FindsTariffs o
        (day_at moment) after.now) (FindsTariffsSeen (day_at moment) after.now)
        (AreTariffsSpoilt (day_at moment) after.now) old new result) }
{
    let names = tariffs_after(alloc, conn, name_or_none(after))?;
    let day = day_of(moment);
    let mut listed = Vec::new(alloc);
    for name in &names {
        let found = tariff_named(alloc, conn, name, day)?;
        let Some(tariff) = found else {
            // Each tariff of an office has steps.
            return Err(TableError::RowOfNoOffice);
        };
        listed.push(tariff).map_err(AllocError::from)?;
    }
    Ok(Ok(Found::Tariffs(listed)))
}

// The text of the name, or the empty one, which comes before all.
fn name_or_none(after: &Option<TariffName>) -> &[u8]
    ensures { result.now ≡ unwrap_or after.now [] }
{
    match after {
        Some(name) => name.as_bytes(),
        None => &[],
    }
}

// The tariff of a name with its steps on a day, and with those of later days.
fn tariff_named<S: Alter>(
    alloc: Global,
    conn: &mut Connection<S>,
    name: &TariffName,
    day: Day,
) -> Result<Option<ListedTariff>, TableError>
    ensures { Over S.Store conn (λ old new. LooksUp IsUnchanged (λ o. TellsOf o day name.now)
        (IsTariffNamedSeen day name.now) (IsTariffNamedSpoilt day name.now) old new result) }
{
    let found = steps_on(alloc, conn, name, day)?;
    let Some(steps) = found else {
        return Ok(None);
    };
    let later = later_steps(alloc, conn, name, day)?;
    Ok(Some(ListedTariff {
        name: *name,
        steps,
        later,
    }))
}

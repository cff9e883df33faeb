//! What requests look at of a tariff's steps by their days.

ghost use Rattle.std.specs.Option.{option_or};
ghost use Rattle.std.specs.Prelude.{◌≡◌};
ghost use Rattle.sqlite.specs.State.{IsUnchanged};
ghost use Rattle.one_table.specs.Over.{Over};
ghost use Rattle.office_rules.specs.Decision.Facts.{AreDatedFacts, AreWithdrawalFacts};
ghost use Rattle.office_rules.specs.Office.Lookup.{latest};
ghost use Rattle.book_states.specs.FactsSeen.{AreDatedFactsSeen, AreStepsSeenOn};
ghost use Rattle.book_states.specs.FactsSeen.{AreWithdrawalFactsSeen};
ghost use Rattle.book_states.specs.Spoilt.{AreDatedSpoilt, AreStepsSpoiltOn, IsWithdrawalSpoilt};
ghost use Rattle.book_facts.specs.Looking.{LooksUp};

use book_tables::TableError;
use book_tables::reading::{dated_steps, sales, tariffs};
use office_rules::{Facts, TariffName};
use sqlite::{Alter, Connection};
use std::alloc::Global;
use sts_fields::Day;
use tariff::Steps;

/// The steps of the tariff of a name on a day: the latest that have begun by then, else the first.
pub(crate) fn steps_on<S: Alter>(
    alloc: Global,
    conn: &mut Connection<S>,
    name: &TariffName,
    day: Day,
) -> Result<Option<Steps>, TableError>
    ensures { Over S.Store conn (λ old new. LooksUp IsUnchanged (λ o found. found ≡ option_or
        (latest (o.dated_steps name.now) day) (o.tariffs name.now))
        (AreStepsSeenOn name.now day) (AreStepsSpoiltOn name.now day) old new result) }
{
    let begun = dated_steps::latest_steps(alloc, conn, name, day)?;
    if begun.is_some() {
        return Ok(begun);
    }
    tariffs::steps_of(alloc, conn, name)
}

/// What AddSteps looks at: whether there is its tariff, and the steps of its day only where there
/// is.
pub(crate) fn dated_facts<S: Alter>(
    alloc: Global,
    conn: &mut Connection<S>,
    name: &TariffName,
    day: Day,
) -> Result<Facts, TableError>
    ensures { Over S.Store conn (λ old new. LooksUp IsUnchanged (λ o. AreDatedFacts o name.now day)
        (AreDatedFactsSeen name.now day) (AreDatedSpoilt name.now day) old new result) }
{
    let has_tariff = tariffs::has_tariff(conn, name)?;
    if !has_tariff {
        return Ok(Facts::none());
    }
    let dated_steps = dated_steps::steps_from(alloc, conn, name, day)?;
    Ok(Facts {
        has_tariff,
        dated_steps,
        ..Facts::none()
    })
}

/// What WithdrawSteps looks at: whether there is its tariff; the steps of its day only where there
/// is; and whether a sale was made since that day only where there are such steps.
pub(crate) fn withdrawal_facts<S: Alter>(
    alloc: Global,
    conn: &mut Connection<S>,
    name: &TariffName,
    day: Day,
) -> Result<Facts, TableError>
    ensures { Over S.Store conn (λ old new. LooksUp IsUnchanged
        (λ o. AreWithdrawalFacts o name.now day) (AreWithdrawalFactsSeen name.now day)
        (IsWithdrawalSpoilt name.now day) old new result) }
{
    let dated = dated_facts(alloc, conn, name, day)?;
    if !dated.has_tariff {
        return Ok(dated);
    }
    if dated.dated_steps.is_none() {
        return Ok(dated);
    }
    let sold_since = sales::sold_since(conn, day)?;
    Ok(Facts {
        sold_since,
        ..dated
    })
}

//! What requests on tariffs and meters look at.

ghost use Rattle.std.specs.Prelude.{◌≡◌};
ghost use Rattle.sqlite.specs.State.{IsUnchanged};
ghost use Rattle.one_table.specs.Over.{Over};
ghost use Rattle.office_rules.specs.Decision.Facts.{AreKeyFacts, AreMeterFacts, AreSettingFacts};
ghost use Rattle.office_rules.specs.Decision.Facts.{has_other_key};
ghost use Rattle.book_tables.specs.reading.Questions.{the_meter, the_steps};
ghost use Rattle.book_tables.specs.reading.Seen.{AreStepsSeen, HasSpoilt, HasSpoiltSteps};
ghost use Rattle.book_tables.specs.reading.Seen.{ShowsFirst};
ghost use Rattle.book_states.specs.FactsSeen.{AreKeyFactsSeen, AreMeterFactsSeen};
ghost use Rattle.book_states.specs.FactsSeen.{AreSettingFactsSeen};
ghost use Rattle.book_states.specs.Spoilt.{IsKeySpoilt, IsMeterSpoilt, IsSettingSpoilt};
ghost use Rattle.book_facts.specs.Looking.{LooksUp};

use book_tables::reading::{meters, tariffs, totals};
use book_tables::{TableError, members_law};
use office_rules::{Facts, Meter, MeterNo, TariffName};
use sqlite::{Alter, Connection};
use std::alloc::Global;

/// What AddTariff looks at: the steps under its name.
pub(crate) fn tariff_facts<S: Alter>(
    alloc: Global,
    conn: &mut Connection<S>,
    name: &TariffName,
) -> Result<Facts, TableError>
    ensures { Over S.Store conn (λ old new. LooksUp IsUnchanged
        (λ o f. f.tariff ≡ o.tariffs name.now) (λ db f. AreStepsSeen
        (the_steps name.now) db f.tariff) (HasSpoiltSteps (the_steps name.now)) old new result) }
{
    let steps = tariffs::steps_of(alloc, conn, name)?;
    Ok(Facts {
        tariff: steps,
        ..Facts::none()
    })
}

/// What MoveBase looks at: the meter of its number.
pub(crate) fn moving_facts<S: Alter>(
    conn: &mut Connection<S>,
    number: &MeterNo,
) -> Result<Facts, TableError>
    ensures { Over S.Store conn (λ old new. LooksUp IsUnchanged
        (λ o f. f.meter ≡ o.meters number.now) (λ db f. ShowsFirst
        (the_meter number.now) db f.meter) (HasSpoilt (the_meter number.now)) old new result) }
{
    members_law();
    let there = meters::meter_numbered(conn, number)?;
    Ok(Facts {
        meter: there,
        ..Facts::none()
    })
}

/// What AddMeter looks at: the tariff only where there is no meter of the number.
pub(crate) fn meter_facts<S: Alter>(
    conn: &mut Connection<S>,
    number: &MeterNo,
    meter: &Meter,
) -> Result<Facts, TableError>
    ensures { Over S.Store conn (λ old new. LooksUp IsUnchanged
        (λ o. AreMeterFacts o number.now meter.now) (AreMeterFactsSeen number.now meter.now)
        (IsMeterSpoilt number.now meter.now) old new result) }
{
    members_law();
    let there = meters::meter_numbered(conn, number)?;
    if there.is_some() {
        return Ok(Facts {
            meter: there,
            ..Facts::none()
        });
    }
    let has_tariff = tariffs::has_tariff(conn, &meter.tariff)?;
    Ok(Facts {
        meter: there,
        has_tariff,
        ..Facts::none()
    })
}

/// What SetTariff looks at: the tariff only where there is a meter of the number.
pub(crate) fn setting_facts<S: Alter>(
    conn: &mut Connection<S>,
    number: &MeterNo,
    name: &TariffName,
) -> Result<Facts, TableError>
    ensures { Over S.Store conn (λ old new. LooksUp IsUnchanged
        (λ o. AreSettingFacts o number.now name.now) (AreSettingFactsSeen number.now name.now)
        (IsSettingSpoilt number.now name.now) old new result) }
{
    members_law();
    let there = meters::meter_numbered(conn, number)?;
    if there.is_none() {
        return Ok(Facts::none());
    }
    let has_tariff = tariffs::has_tariff(conn, name)?;
    Ok(Facts {
        meter: there,
        has_tariff,
        ..Facts::none()
    })
}

/// What SetKey looks at: the sales to the meter of its number only where there is one that has
/// another key.
pub(crate) fn key_facts<S: Alter>(
    conn: &mut Connection<S>,
    number: &MeterNo,
    key: u64,
) -> Result<Facts, TableError>
    ensures { Over S.Store conn (λ old new. LooksUp IsUnchanged
        (λ o. AreKeyFacts o number.now key) (AreKeyFactsSeen number.now key)
        (IsKeySpoilt number.now key) old new result) }
{
    members_law();
    let there = meters::meter_numbered(conn, number)?;
    if !has_other_key(&there, key) {
        return Ok(Facts {
            meter: there,
            ..Facts::none()
        });
    }
    let has_sales = totals::has_sales(conn, number)?;
    Ok(Facts {
        meter: there,
        has_sales,
        ..Facts::none()
    })
}

// Whether there is a meter, and it has another key.
fn has_other_key(meter: &Option<Meter>, key: u64) -> bool
    ensures { result ≡ has_other_key key meter.now }
{
    match meter {
        Some(meter) => meter.key != key,
        None => false,
    }
}

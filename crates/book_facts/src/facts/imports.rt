//! What an import looks at.

ghost use Rattle.std.specs.Prelude.{◌≡◌, ◌↔◌, Err, List, Some, false, true, ℕ};
ghost use Rattle.sqlite.specs.State.{IsUnchanged};
ghost use Rattle.one_table.specs.Over.{Over};
ghost use Rattle.tariff.specs.declared.step.Step.{Step};
ghost use Rattle.office_rules.specs.Decision.{meter_eq, row_decision};
ghost use Rattle.office_rules.specs.Decision.Facts.{AreRowsFacts, row_facts};
ghost use Rattle.office_rules.specs.Office.{Office};
ghost use Rattle.office_rules.specs.declared.decision.row_facts.RowFacts.{RowFacts};
ghost use Rattle.book_states.specs.FactsSeen.{AreRowsSeen, IsRowSeen};
ghost use Rattle.book_states.specs.Same.{IsSame};
ghost use Rattle.book_states.specs.Spoilt.{AreRowsSpoilt, AreStepsRowSpoilt, IsMeterSpoilt};
ghost use Rattle.book_states.specs.Spoilt.{IsRowSpoilt};
ghost use Rattle.book_facts.specs.Looking.{LooksUp};

use book_tables::reading::{dated_steps, meters, tariffs};
use book_tables::{TableError, members_law};
use office_rules::{Facts, ImportFacts, Meter, MeterNo, Refusal, Row, RowFacts, Rows, TariffName};
use sqlite::{Alter, Connection};
use std::alloc::{AllocError, Global};
use sts_fields::Day;

/// What an import looks at: what is under the names of its rows, up to the first row that differs
/// from it.
pub(crate) fn import_facts<S: Alter>(
    alloc: Global,
    conn: &mut Connection<S>,
    rows: &Rows,
) -> Result<Facts, TableError>
    ensures { Over S.Store conn (λ old new. LooksUp IsSame (λ o f. (today : ℕ) →
        (fs : List RowFacts) × (f.rows ≡ Some fs) × AreRowsFacts o today rows.now fs) (λ db f.
        (fs : List RowFacts) × (f.rows ≡ Some fs) × AreRowsSeen rows.now db fs)
        (AreRowsSpoilt rows.now) old new result) }
{
    let found = found_of(alloc, conn, rows.as_slice())?;
    Ok(Facts {
        rows: Some(ImportFacts::of(found)),
        ..Facts::none()
    })
}

fn found_of<S: Alter>(
    alloc: Global,
    conn: &mut Connection<S>,
    rows: &[Row],
) -> Result<Vec<RowFacts>, TableError>
    ensures { Over S.Store conn (λ old new. LooksUp IsSame (λ o found. (today : ℕ)
        → AreRowsFacts o today rows.now found.items) (λ db found. AreRowsSeen rows.now db
        found.items) (AreRowsSpoilt rows.now) old new result) }
{
    let mut found = Vec::new(alloc);
    for row in rows {
        let facts = row_facts(alloc, conn, row)?;
        let differs = differs(row, &facts);
        found.push(facts).map_err(AllocError::from)?;
        if differs {
            return Ok(found);
        }
    }
    Ok(found)
}

fn row_facts<S: Alter>(
    alloc: Global,
    conn: &mut Connection<S>,
    row: &Row,
) -> Result<RowFacts, TableError>
    ensures { Over S.Store conn (λ old new. LooksUp IsUnchanged
        (λ o found. found ≡ row_facts o row.now) (IsRowSeen row.now) (IsRowSpoilt row.now) old new
        result) }
{
    match row {
        Row::Tariff(name, _) => {
            let steps = tariffs::steps_of(alloc, conn, name)?;
            Ok(RowFacts::Tariff(steps))
        }
        Row::Steps(name, day, _) => steps_row_facts(alloc, conn, name, *day),
        Row::Meter(number, meter) => meter_row_facts(conn, number, meter),
    }
}

fn steps_row_facts<S: Alter>(
    alloc: Global,
    conn: &mut Connection<S>,
    name: &TariffName,
    day: Day,
) -> Result<RowFacts, TableError>
    ensures { Over S.Store conn (λ old new. LooksUp IsUnchanged (λ o found. (steps : List Step)
        → found ≡ row_facts o (Row.Steps name.now day steps)) (λ db found. (steps : List Step)
        → IsRowSeen (Row.Steps name.now day steps) db found)
        (AreStepsRowSpoilt name.now day) old new result) }
{
    let has_tariff = tariffs::has_tariff(conn, name)?;
    let steps = dated_steps::steps_from(alloc, conn, name, day)?;
    Ok(RowFacts::Steps(has_tariff, steps))
}

fn meter_row_facts<S: Alter>(
    conn: &mut Connection<S>,
    number: &MeterNo,
    meter: &Meter,
) -> Result<RowFacts, TableError>
    ensures { Over S.Store conn (λ old new. LooksUp IsUnchanged (λ o found. found ≡ row_facts o
        (Row.Meter number.now meter.now)) (IsRowSeen (Row.Meter number.now meter.now))
        (IsMeterSpoilt number.now meter.now) old new result) }
{
    members_law();
    let there = meters::meter_numbered(conn, number)?;
    if let Some(there) = there {
        return Ok(RowFacts::Meter(there));
    }
    let has_tariff = tariffs::has_tariff(conn, &meter.tariff)?;
    Ok(RowFacts::NoMeter(has_tariff))
}

// Whether something else is there under the row's name.
fn differs(row: &Row, found: &RowFacts) -> bool
    ensures { (o : Office) (today : ℕ) → found.now ≡ row_facts o row.now
        → (result ≡ true) ↔ (row_decision o today row.now ≡ Err Refusal.Differs) }
{
    match (row, found) {
        (Row::Tariff(_, steps), RowFacts::Tariff(Some(there))) => there != steps,
        (Row::Steps(_, _, steps), RowFacts::Steps(true, Some(there))) => there != steps,
        (Row::Meter(_, meter), RowFacts::Meter(there)) => !same_meter(there, meter),
        _ => false,
    }
}

fn same_meter(there: &Meter, meter: &Meter) -> bool
    ensures { result ≡ meter_eq there.now meter.now }
{
    there.base.year() == meter.base.year()
        && there.tariff.as_bytes() == meter.tariff.as_bytes()
        && there.key == meter.key
}

//! How an import is decided: its rows in order, each against the office with the rows before it.
ghost use Rattle.std.specs.Prelude.{◌≡◌, ◌≢◌, ◌≤◌, ◌⊎◌, ℕ, List, IfErr, IfOk, Ok, Err, None, Some};
ghost use Rattle.std.specs.Prelude.{[], length, unwrap_or};
ghost use Rattle.std.specs.Option.{option_copied, option_or};
ghost use Rattle.sts_fields.specs.Day.{day_at};
ghost use Rattle.office_rules.specs.Decision.{at_row, import, new_rows};
ghost use Rattle.office_rules.specs.Decision.Edits.{with_rows};
ghost use Rattle.office_rules.specs.Decision.Facts.{AreRowsFacts, HasNewRow, IsUnlessMemory};
ghost use Rattle.office_rules.specs.Office.{Office};
ghost use Rattle.office_rules.specs.Office.Rows.{greatest_rows};
ghost use Rattle.office_decisions.specs.OverFacts.{dated_found, import_on, meter_there};
ghost use Rattle.office_decisions.specs.OverFacts.{new_rows_on, steps_found, tariff_stands};
ghost use Rattle.office_decisions.specs.OverFacts.{tariff_there};
ghost use Rattle.office_decisions.specs.RowsTaken.{dated_under, under};
ghost use Rattle.office_rules.specs.declared.decision.row_facts.RowFacts.{RowFacts};

use crate::decision::additions::{is_new_meter, is_new_steps, is_new_tariff};
use office_rules::{
    Answer, Change, Edit, ImportFacts, Meter, MeterNo, Refusal, Row, RowCause, RowFacts, Rows,
    TariffName,
};
use std::alloc::{AllocError, Global};
use std::collections::BTreeMap;
use sts_fields::{Day, Moment, day_of};
use tariff::Steps;

/// The new rows so far, and what stands under their names and days: a row is looked up there
/// without a scan.
#[derive(Drop)]
struct RowsTaken<'a> {
    rows: Vec<Row>,
    tariffs: BTreeMap<&'a [u8], &'a Steps>,
    dated_steps: BTreeMap<(&'a [u8], u32), &'a Steps>,
    meters: BTreeMap<&'a [u8], &'a Meter>,
    ghost tariffs_found: { (o : Office) (q : List ℕ) → (with_rows rows.items o).tariffs q
        ≡ option_or (under tariffs q) (o.tariffs q) },
    ghost dated_found: { (o : Office) (q : List ℕ) (d : ℕ)
        → (with_rows rows.items o).dated_steps q d
        ≡ option_or (dated_under dated_steps q d) (o.dated_steps q d) },
    ghost meters_found: { (o : Office) (q : List ℕ) → (with_rows rows.items o).meters q
        ≡ option_or (under meters q) (o.meters q) },
}

impl<'a> RowsTaken<'a> {
    ghost use Rattle.std.specs.Prelude.{◌≡◌, ◌≢◌, ◌+◌, ◌≤◌, ◌⊎◌, ◌++◌, ◌∷◌, [], IfErr, OnOk, Ok};
    ghost use Rattle.std.specs.Prelude.{Err, Some, is_some, length, true, if◌then◌else◌};
    ghost use Rattle.std.specs.Option.{option_copied};
    ghost use Rattle.office_rules.specs.Decision.{at_row, is_new, row_decision};
    ghost use Rattle.office_rules.specs.Decision.Edits.{with_rows};
    ghost use Rattle.office_rules.specs.Office.{Office};
    ghost use Rattle.office_rules.specs.declared.decision.change.Change.{Change};
    ghost use Rattle.office_decisions.specs.OverFacts.{Shows};

    fn new(alloc: Global) -> RowsTaken<'a>
        ensures { result.rows.items ≡ [] }
    {
        RowsTaken {
            rows: Vec::new(alloc),
            tariffs: BTreeMap::new(alloc),
            dated_steps: BTreeMap::new(alloc),
            meters: BTreeMap::new(alloc),
        }
    }

    // The steps under a name: of a row taken before, or those in the office.
    fn steps_under(&self, name: &'a TariffName, there: Option<&'a Steps>) -> Option<&'a Steps>
        ensures { (o : Office) → option_copied there.entry ≡ o.tariffs name.now
            → option_copied result ≡ (with_rows self.now.rows.items o).tariffs name.now }
    {
        match self.tariffs.get(name.as_bytes()) {
            Some(steps) => Some(*steps),
            None => there,
        }
    }

    // The steps under a name and a first day: of a row taken before, or those in the office.
    fn steps_from(
        &self,
        name: &'a TariffName,
        day: Day,
        there: Option<&'a Steps>,
    ) -> Option<&'a Steps>
        ensures { (o : Office) → option_copied there.entry ≡ o.dated_steps name.now day
            → option_copied result ≡ (with_rows self.now.rows.items o).dated_steps name.now day }
    {
        match self.dated_steps.get(&(name.as_bytes(), day.days())) {
            Some(steps) => Some(*steps),
            None => there,
        }
    }

    // The meter of a number: of a row taken before, or the one in the office.
    fn meter_under(&self, number: &'a MeterNo, there: Option<Meter>) -> Option<Meter>
        ensures { (o : Office) → there ≡ o.meters number.now
            → result ≡ (with_rows self.now.rows.items o).meters number.now }
    {
        match self.meters.get(number.as_bytes()) {
            Some(meter) => Some(**meter),
            None => there,
        }
    }

    // Whether there is a tariff of a name: of a row taken before, or in the office.
    fn has_tariff(&self, name: &'a TariffName, there: bool) -> bool
        ensures { (o : Office) → there ≡ is_some (o.tariffs name.now)
            → result ≡ is_some ((with_rows self.now.rows.items o).tariffs name.now) }
    {
        self.tariffs.contains_key(name.as_bytes()) || there
    }

    // Whether a row is new in the office with the rows taken before, where it is today, or why it
    // is refused.
    fn is_new(&self, today: Day, row: &'a Row, found: Option<&'a RowFacts>) -> Result<bool, Refusal>
        ensures value { (o : Office) → Shows o row.now (option_copied found.entry)
            → result ≡ is_new (row_decision (with_rows self.now.rows.items o) today row.now) }
        ensures causes { IfErr result (λ refusal. (refusal ≡ Refusal.Differs)
            ⊎ (refusal ≡ Refusal.NoTariff) ⊎ (refusal ≡ Refusal.DayPast)) }
    {
        match row {
            Row::Tariff(name, steps) => {
                is_new_tariff(steps, self.steps_under(name, steps_of(found)))
            }
            Row::Steps(name, day, steps) => is_new_steps(
                *day,
                steps,
                today,
                self.has_tariff(name, stands(found)),
                self.steps_from(name, *day, dated_steps_of(found)),
            ),
            Row::Meter(number, meter) => is_new_meter(
                meter,
                self.meter_under(number, meter_of(found)),
                self.has_tariff(&meter.tariff, has_tariff_of(found)),
            ),
        }
    }

    // Takes a row of this number where it is new today, or says why it is refused.
    fn go_on(
        &mut self,
        number: u32,
        today: Day,
        row: &'a Row,
        found: Option<&'a RowFacts>,
    ) -> Result<(), Refusal>
        ensures ok { (o : Office) → Shows o row.now (option_copied found.entry)
            → OnOk result ((change : Change)
            × (row_decision (with_rows self.old.rows.items o) today row.now ≡ Ok change)
            × (self.new.rows.items
            ≡ self.old.rows.items ++ (if is_some change.edit then row.now ∷ [] else []))) }
        ensures err { (o : Office) → Shows o row.now (option_copied found.entry)
            → IfErr result (λ refusal.
            (at_row number (row_decision (with_rows self.old.rows.items o) today row.now)
            ≡ Err refusal) ⊎ (refusal ≡ Refusal.Memory)) }
        ensures memory { (o : Office) → Shows o row.now (option_copied found.entry)
            → IfErr result (λ refusal. refusal ≡ Refusal.Memory
            → is_new (row_decision (with_rows self.old.rows.items o) today row.now) ≡ Ok true) }
        ensures one { OnOk result (length self.new.rows.items ≤ length self.old.rows.items + 1) }
        ensures no_store { (result ≢ Err Refusal.Store) × (result ≢ Err Refusal.Stopped) }
    {
        match self.is_new(today, row, found) {
            Ok(true) => {
                self.take(row)?;
                Ok(())
            }
            Ok(false) => Ok(()),
            Err(refusal) => Err(at_row(number, refusal)),
        }
    }

    // Takes a new row.
    fn take(&mut self, row: &'a Row) -> Result<(), AllocError>
        ensures { OnOk result (self.new.rows.items ≡ self.old.rows.items ++ row.now ∷ []) }
    {
        self.rows.reserve(1)?;
        match row {
            Row::Tariff(name, steps) => {
                let own = Row::Tariff(*name, steps.clone()?);
                self.tariffs.insert(name.as_bytes(), steps)?;
                self.rows.push(own)?;
            }
            Row::Steps(name, day, steps) => {
                let own = Row::Steps(*name, *day, steps.clone()?);
                let key = (name.as_bytes(), day.days());
                self.dated_steps.insert(key, steps)?;
                self.rows.push(own)?;
            }
            Row::Meter(number, meter) => {
                self.meters.insert(number.as_bytes(), meter)?;
                self.rows.push(Row::Meter(*number, *meter))?;
            }
        }
        Ok(())
    }
}

// What is found of a tariff row: the steps in the office.
fn steps_of<'a>(found: Option<&'a RowFacts>) -> Option<&'a Steps>
    ensures { option_copied result ≡ steps_found (option_copied found.entry) }
{
    match found {
        Some(RowFacts::Tariff(there)) => there.as_ref(),
        _ => None,
    }
}

// What is found of a row of steps: whether there is the tariff in the office.
fn stands(found: Option<&RowFacts>) -> bool
    ensures { result ≡ tariff_stands (option_copied found.entry) }
{
    matches!(found, Some(RowFacts::Steps(true, _)))
}

// And its steps of the first day.
fn dated_steps_of<'a>(found: Option<&'a RowFacts>) -> Option<&'a Steps>
    ensures { option_copied result ≡ dated_found (option_copied found.entry) }
{
    match found {
        Some(RowFacts::Steps(_, there)) => there.as_ref(),
        _ => None,
    }
}

// What is found of a meter row: the meter in the office.
fn meter_of(found: Option<&RowFacts>) -> Option<Meter>
    ensures { result ≡ meter_there (option_copied found.entry) }
{
    match found {
        Some(RowFacts::Meter(there)) => Some(*there),
        _ => None,
    }
}

// What is found of a meter row, where the office has no such meter: whether it has the tariff.
fn has_tariff_of(found: Option<&RowFacts>) -> bool
    ensures { result ≡ tariff_there (option_copied found.entry) }
{
    matches!(found, Some(RowFacts::NoMeter(true)))
}

// A row's refusal, as that of the import.
fn at_row(number: u32, refusal: Refusal) -> Refusal
    ensures { at_row number (Err refusal) ≡ Err result }
{
    match refusal {
        Refusal::Differs => Refusal::ImportRow(number, RowCause::Differs),
        Refusal::NoTariff => Refusal::ImportRow(number, RowCause::NoTariff),
        Refusal::DayPast => Refusal::ImportRow(number, RowCause::DayPast),
        other => other,
    }
}

/// Decides an import at a moment, where this was found under the names of its rows.
pub(crate) fn import<'a>(
    alloc: Global,
    rows: &'a Rows,
    moment: Moment,
    found: Option<&'a ImportFacts>,
) -> Result<Change, Refusal>
    ensures exact { IsUnlessMemory result
        (import_on (day_at moment) rows.now (unwrap_or (option_copied found.entry) [])) }
    ensures decided { (o : Office) (fs : List RowFacts) → option_copied found.entry ≡ Some fs
        → AreRowsFacts o (day_at moment) rows.now fs
        → IsUnlessMemory result (import o (day_at moment) rows.now) }
    ensures memory { (o : Office) (fs : List RowFacts) → option_copied found.entry ≡ Some fs
        → AreRowsFacts o (day_at moment) rows.now fs → result ≡ Err Refusal.Memory
        → HasNewRow o (day_at moment) rows.now }
    ensures no_store { (result ≢ Err Refusal.Store) × (result ≢ Err Refusal.Stopped) }
{
    let found = match found {
        Some(found) => found.as_slice(),
        None => &[],
    };
    let new = new_rows(alloc, rows.as_slice(), day_of(moment), found)?;
    let count = new.len() as u32;
    if count == 0 {
        return Ok(Change {
            edit: None,
            answer: Answer::Imported(0),
        });
    }
    Ok(Change {
        edit: Some(Edit::AddRows(Rows::of(new).unwrap())),
        answer: Answer::Imported(count),
    })
}

// The new rows, or why one is refused.
fn new_rows<'a>(
    alloc: Global,
    rows: &'a [Row],
    today: Day,
    found: &'a [RowFacts],
) -> Result<Vec<Row>, Refusal>
    requires { length rows.now ≤ greatest_rows }
    ensures exact_ok { IfOk result (λ new.
        new_rows_on [] today 0 rows.now found.now ≡ Ok new.items) }
    ensures exact_err { IfErr result (λ refusal.
        (new_rows_on [] today 0 rows.now found.now ≡ Err refusal) ⊎ (refusal ≡ Refusal.Memory)) }
    ensures ok { (o : Office) → AreRowsFacts o today rows.now found.now
        → IfOk result (λ new. new_rows o today 1 rows.now ≡ Ok new.items) }
    ensures err { (o : Office) → AreRowsFacts o today rows.now found.now
        → IfErr result (λ refusal.
        (new_rows o today 1 rows.now ≡ Err refusal) ⊎ (refusal ≡ Refusal.Memory)) }
    ensures memory { (o : Office) → AreRowsFacts o today rows.now found.now
        → result ≡ Err Refusal.Memory → HasNewRow o today rows.now }
    ensures few { IfOk result (λ new. length new.items ≤ length rows.now) }
    ensures no_store { (result ≢ Err Refusal.Store) × (result ≢ Err Refusal.Stopped) }
{
    let mut taken = RowsTaken::new(alloc);
    let mut number = 0;
    for row in rows {
        let facts = found.get(number as usize);
        number += 1;
        taken.go_on(number, today, row, facts)?;
    }
    Ok(taken.rows)
}

//! The steps that the tariffs of an office may have had.

ghost use Rattle.std.specs.Prelude.{◌≡◌, ◌++◌, [], ◌∷◌, IfErr, IfOk, OnOk, length};
ghost use Rattle.office_rules.specs.Office.{Office};
ghost use Rattle.audit_lists.specs.Keys.{ArePlaces, IsNew};
ghost use Rattle.audit_lists.specs.Steps.{AreSteps};
ghost use Rattle.audit_lists.specs.Ties.{Each, Says, found};
ghost use Rattle.audit_lists.specs.reached.Finds.{AreRowsOfOffice};
ghost use Rattle.audit_lists.specs.reached.Prices.{AreListed, AreLists, HaveLists, IsListOf};
ghost use Rattle.audit_lists.specs.reached.Prices.{told_of_steps};
ghost use Rattle.audit_rows.specs.declared.finding.Rule.TheVariants as rule;

use crate::fault::{OfficeFault, found};
use crate::key::{KeyOf, Place};
use crate::places::{Places, places_of};
use crate::steps::{HasStep, first_steps};
use audit_rows::{DatedStepRow, Named, OfficeRows, Rule, StepRow};
use std::alloc::{AllocError, Global};
use tariff::{Steps, StepsFault};

/// Steps that a tariff has from a day on; the first ones have day 0.
#[derive(Drop)]
pub(crate) struct ListedSteps {
    pub(crate) from: u32,
    pub(crate) steps: Steps,
}

// What is told of a row whose steps are not made: there was no memory, or no tariff may have them.
fn steps_fault<T: Named>(row: &T, fault: StepsFault) -> OfficeFault
    ensures { result ≡ told_of_steps (found T.name rule.Steps (T.key row.now)) fault }
{
    match fault {
        StepsFault::Memory => OfficeFault::Memory,
        _ => OfficeFault::Found(found(row, Rule::Steps)),
    }
}

// The steps of which a row is the first one.
fn list_of<'a, T: HasStep + Named, K: KeyOf<T>>(
    alloc: Global,
    rows: &'a [T],
    places: &Places<'a>,
    row: &'a T,
) -> Result<ListedSteps, OfficeFault>
    requires { ArePlaces K.key places.now rows.now (length rows.now) }
    ensures lists { (K.key row.now).3 ≡ 0
        → IfOk result (IsListOf T.step K.key rows.now row.now) }
    ensures found { IfErr result (Says (λ _. Each (IsNew K.key rows.now) rows.now
        → ¬ AreSteps T.step K.key rows.now (K.key row.now))) }
{
    let key = K::of(row);
    let steps = first_steps::<T, K>(alloc, rows, places, key)?;
    match Steps::read(alloc, &steps) {
        Ok(steps) => Ok(ListedSteps { from: key.2, steps }),
        Err(fault) => Err(steps_fault(row, fault)),
    }
}

fn add_list(listed: &mut Vec<ListedSteps>, list: ListedSteps) -> Result<(), AllocError>
    ensures { OnOk result (listed.new.items ≡ listed.old.items ++ list ∷ []) }
{
    listed.push(list)?;
    Ok(())
}

// The lists of steps that some rows are.
fn lists_of<'a, T: HasStep + Named, K: KeyOf<T>>(
    alloc: Global,
    rows: &'a [T],
) -> Result<Vec<ListedSteps>, OfficeFault>
    ensures lists { IfOk result (λ listed. AreLists T.step K.key rows.now (length rows.now)
        listed.items) }
    ensures found { IfErr result (Says (λ _. ¬ HaveLists T.step K.key rows.now)) }
{
    let places = places_of::<T, K>(alloc, rows, Rule::Twice)?;
    let mut listed = Vec::new(alloc);
    'rows: for at in 0..rows.len() {
        let row = &rows[at];
        if K::of(row).3 == 0 {
            let list = list_of::<T, K>(alloc, rows, &places, row)?;
            add_list(&mut listed, list)?;
        }
    }
    Ok(listed)
}

/// The steps that the tariffs of the office of these rows may have had.
///
/// # Errors
/// `OfficeFault::Found` if a row is no office's, `OfficeFault::Memory` if there is no memory.
pub(crate) fn listed_steps(
    alloc: Global,
    rows: &OfficeRows,
) -> Result<Vec<ListedSteps>, OfficeFault>
    ensures lists { IfOk result (λ listed. (o : Office) → AreRowsOfOffice rows.now o
        → AreListed o listed.items) }
    ensures found { IfErr result (Says (λ _. (o : Office) → ¬ AreRowsOfOffice rows.now o)) }
{
    let mut listed = lists_of::<StepRow, Place>(alloc, &rows.steps)?;
    listed.append(&mut lists_of::<DatedStepRow, Place>(alloc, &rows.dated_steps)?)?;
    Ok(listed)
}

//! The steps of tariffs, each at its place from 0.

ghost use Rattle.std.specs.Prelude.{◌≡◌, ◌↔◌, IfErr, IfOk, IsTrue, OnOk, length};
ghost use Rattle.audit_rows.specs.declared.finding.Rule.TheVariants as rule;
ghost use Rattle.audit_lists.specs.Keys.{ArePlaces, IsNew, owned_key};
ghost use Rattle.audit_lists.specs.Steps.{AreFirstUnder, AreSteps};
ghost use Rattle.audit_lists.specs.Ties.{Each, IsFirst, Says, each, listed};

use crate::fault::{OfficeFault, found};
use crate::key::{KeyOf, LentKey};
use crate::places::{Places, place_of};
use audit_rows::{DatedStepRow, Named, Rule, StepRow};
use std::alloc::{AllocError, Global};
use tariff::{Step, Steps, StepsFault};

/// A row that has a step.
pub(crate) trait HasStep {
    ghost use Rattle.tariff.specs.declared.step.Step.{Step};

    ghost step: { Self → Step };

    fn step(&self) -> Step
        ensures { result ≡ step self.now };
}

impl HasStep for StepRow {
    ghost step = { λ r. r.step };

    fn step(&self) -> Step {
        self.step
    }
}

impl HasStep for DatedStepRow {
    ghost step = { λ r. r.step };

    fn step(&self) -> Step {
        self.step
    }
}

/// The steps at the places from 0 on, up to the first that has none, and nine at the most.
pub(crate) fn first_steps<'a, T: HasStep, K: KeyOf<T>>(
    alloc: Global,
    rows: &'a [T],
    places: &Places<'a>,
    key: LentKey<'a>,
) -> Result<Vec<Step>, AllocError>
    requires { ArePlaces K.key places.now rows.now (length rows.now) }
    ensures { IfOk result (λ steps.
        AreFirstUnder T.step K.key rows.now (owned_key key.entry) steps.items) }
{
    let (text, more, number, _) = key;
    let mut steps = Vec::new(alloc);
    'places: for place in 0..9 {
        let Some(at) = place_of(places, (text, more, number, place)) else {
            return Ok(steps);
        };
        steps.push(rows[at].step())?;
    }
    Ok(steps)
}

// Whether they are steps that a tariff may have.
fn are_steps<'a, T: HasStep, K: KeyOf<T>>(
    alloc: Global,
    rows: &'a [T],
    places: &Places<'a>,
    key: LentKey<'a>,
) -> Result<bool, AllocError>
    requires places { ArePlaces K.key places.now rows.now (length rows.now) }
    requires apart { Each (IsNew K.key rows.now) rows.now }
    ensures { IfOk result (λ are.
        IsTrue are ↔ AreSteps T.step K.key rows.now (owned_key key.entry)) }
{
    let steps = first_steps::<T, K>(alloc, rows, places, key)?;
    match Steps::read(alloc, &steps) {
        Ok(_read) => Ok(true),
        Err(StepsFault::Memory) => Err(AllocError),
        Err(_fault) => Ok(false),
    }
}

/// Nothing where under each key of some others the steps are those that a tariff may have; or the
/// first of these where they are not.
///
/// # Errors
/// `OfficeFault::Found` with the first that are not, `OfficeFault::Memory` if there is no memory.
pub(crate) fn test_steps<'a, T: HasStep, K: KeyOf<T>, U: Named, G: KeyOf<U>>(
    alloc: Global,
    rows: &'a [T],
    places: &Places<'a>,
    others: &'a [U],
) -> Result<(), OfficeFault>
    requires places { ArePlaces K.key places.now rows.now (length rows.now) }
    requires apart { Each (IsNew K.key rows.now) rows.now }
    ensures passes { OnOk result
        (Each (λ _ other. AreSteps T.step K.key rows.now (G.key other)) others.now) }
    ensures found { IfErr result (Says (IsFirst (each (listed U.name U.key others.now) rule.Steps
        (λ other. AreSteps T.step K.key rows.now (G.key other))))) }
{
    'others: for at in 0..others.len() {
        if !are_steps::<T, K>(alloc, rows, places, G::of(&others[at]))? {
            return Err(OfficeFault::Found(found(&others[at], Rule::Steps)));
        }
    }
    Ok(())
}

ghost use Rattle.std.specs.Prelude.{◌≡◌, ◌≤◌, ◌↔◌, IsTrue, All, MatchOption, length};
ghost use Rattle.std.specs.Bool.{OnTrue};
ghost use Rattle.tariff.specs.Steps.{EndFits, HasEnds, HasPrice, IsRising, IsSteps};
ghost use Rattle.tariff.specs.StepsFault.{FirstFault};

use crate::fault::StepsFault;
use crate::step::Step;

// The greatest number of steps of a tariff.
pub(crate) const MAX_STEPS: usize = 8;

// The greatest price of a step, in cents per kWh.
const MAX_PRICE: u32 = 1_000_000;

// The first fault of steps, or none where a tariff may have them.
pub(crate) fn first_fault(steps: &[Step]) -> Option<StepsFault>
    ensures { MatchOption result (IsSteps steps.now) (FirstFault steps.now) }
{
    if steps.is_empty() {
        return Some(StepsFault::NoStep);
    }
    if steps.len() > MAX_STEPS {
        return Some(StepsFault::TooMany);
    }
    if !has_ends(steps) {
        return Some(StepsFault::EndMissing);
    }
    if !is_rising(steps) {
        return Some(StepsFault::NotRising);
    }
    if !are_priced(steps) {
        return Some(StepsFault::BadPrice);
    }
    None
}

// Whether each step but the last has an end, and the last has none.
fn has_ends(steps: &[Step]) -> bool
    requires { 1 ≤ length steps.now }
    ensures { IsTrue result ↔ HasEnds steps.now }
{
    let (before, last) = steps.split_at(steps.len() - 1);
    before.iter().all(|step| step.ends.is_some()) && last.iter().all(|step| step.ends.is_none())
}

// Whether the first end is greater than 0, and each other one than the one before it.
fn is_rising(steps: &[Step]) -> bool
    ensures rising { IsTrue result ↔ IsRising steps.now }
    ensures ends_fit { OnTrue result (All EndFits steps.now) }
{
    let mut before = 0;
    for step in steps {
        if let Some(end) = step.ends {
            if end <= before {
                return false;
            }
            before = end;
        }
    }
    true
}

// Whether each price is 1 to 1000000 cents.
fn are_priced(steps: &[Step]) -> bool
    ensures { IsTrue result ↔ All HasPrice steps.now }
{
    steps
        .iter()
        .all(|step| 1 <= step.price && step.price <= MAX_PRICE)
}

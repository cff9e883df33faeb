ghost use Rattle.std.specs.Prelude.{◌≡◌, ◌+◌, ◌*◌, ◌^◌, ◌<◌, ◌≤◌, ℕ, List, IsSomeAnd, min};
ghost use Rattle.std.specs.Option.{option_map_or};
ghost use Rattle.tariff.specs.declared.step.Step.{Step};
ghost use Rattle.sts_fields.specs.Amount.{greatest_amount};
ghost use Rattle.tariff.specs.Cost.{cost_of, greatest_prior, price_at, prices_of, step_of};
ghost use Rattle.tariff.specs.Steps.{HasPrice, IsSteps};

use crate::step::Step;
use crate::steps::Steps;

/// The most tenths that a month may have had before.
pub const MAX_PRIOR: u64 = 100_000_000_000_000_000;

/// What so many tenths of a kWh cost after the month's `prior` ones, in whole cents.
///
/// Each tenth has the price of the step that it lies in. Their sum is divided by ten and
/// rounded up once (`docs/PROFILE.md`, "Prices"). There are at most `MAX_PRIOR` before, and
/// `Amount::MAX_TENTHS` of them.
pub fn price(steps: &Steps, prior: u64, tenths: u32) -> u64
    requires prior { prior ≤ greatest_prior }
    requires tenths { tenths ≤ greatest_amount }
    ensures { result ≡ cost_of steps.now prior tenths }
{
    let end = prior + u64::from(tenths);
    let mut priced = prior;
    let mut sum: u64 = 0;
    for step in steps.as_slice() {
        let upper = reach(*step, end).max(priced);
        sum += (upper - priced) * u64::from(step.price);
        priced = upper;
    }
    sum.div_ceil(10)
}

// Where a step stops among the tenths before `end`.
pub(crate) fn reach(step: Step, end: u64) -> u64
    ensures { result ≡ option_map_or (λ e. min e end) step.ends end }
{
    match step.ends {
        Some(ends) => u64::from(ends).min(end),
        None => end,
    }
}

/// What the price of a run of tenths means.
pub fn price_law()
    // The prices of a run are those of its tenths, and a cost is the least number of whole cents
    // that covers them.
    ensures no_tenths { (steps : List Step) (prior : ℕ) → prices_of steps prior 0 ≡ 0 }
    ensures one_tenth { (steps : List Step) (prior : ℕ)
        → prices_of steps prior 1 ≡ price_at steps prior }
    ensures adds { (steps : List Step) (prior t u : ℕ)
        → prices_of steps prior (t + u) ≡ prices_of steps prior t + prices_of steps (prior + t) u }
    ensures rounded_up { (steps : List Step) (prior t : ℕ)
        → (prices_of steps prior t ≤ 10 * cost_of steps prior t)
        × (10 * cost_of steps prior t < prices_of steps prior t + 10) }

    // Each tenth lies in a step of a tariff, so none is free.
    ensures in_a_step { (steps : List Step) (i : ℕ)
        → IsSteps steps → IsSomeAnd (step_of steps i) HasPrice }
    ensures never_free { (steps : List Step) (prior t : ℕ)
        → IsSteps steps → 1 ≤ t → 1 ≤ cost_of steps prior t }

    // The tenths that `price` takes before it are more than those of 10^9 sales.
    ensures most_before { 10 ^ 9 * greatest_amount ≤ greatest_prior }
{}

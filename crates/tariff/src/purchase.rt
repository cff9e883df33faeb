ghost use Rattle.std.specs.Prelude.{◌≡◌, ◌≢◌, ◌+◌, ◌-◌, ◌*◌, ◌^◌, ◌<◌, ◌≤◌, ◌↔◌, ◌⊎◌, ℕ, List};
ghost use Rattle.std.specs.Prelude.{Option, MatchOption};
ghost use Rattle.tariff.specs.declared.bought.Buy.{Buy};
ghost use Rattle.tariff.specs.declared.step.Step.{Step};
ghost use Rattle.tariff.specs.Cost.{cost_of, greatest_prior};
ghost use Rattle.tariff.specs.MostTenths.{AreMost};
ghost use Rattle.tariff.specs.Purchase.{IsPurchase, purchase_of};

use crate::bought::Buy;
use crate::cost::{price, reach};
use crate::steps::Steps;
use crate::tender::Tender;
use sts_fields::{Amount, amount_law};

/// What a tender buys after the month's `prior` tenths, at most `MAX_PRIOR`, or `None` exactly
/// where one tenth costs more.
///
/// It is the greatest amount that a token can carry whose price is at most the tender
/// (`docs/PROFILE.md`, "Purchases").
pub fn buy(steps: &Steps, prior: u64, tender: Tender) -> Option<Buy>
    requires { prior ≤ greatest_prior }
    ensures purchase { MatchOption result (tender < cost_of steps.now prior 1)
        (IsPurchase steps.now prior tender) }
    ensures value { result ≡ purchase_of steps.now prior tender }
{
    amount_law();
    let cents = tender.cents();
    let most = most_tenths(steps, prior, cents);
    if most == 0 {
        return None;
    }
    let tenths = Amount::floor(most);
    let price = price(steps, prior, tenths.tenths()) as u32;
    Some(Buy {
        tenths,
        price,
        change: cents - price,
    })
}

// The most tenths that so many cents pay for, up to what a token can carry: the tenths of each step
// in turn, while the money lasts.
fn most_tenths(steps: &Steps, prior: u64, cents: u32) -> u32
    requires { prior ≤ greatest_prior }
    ensures { AreMost steps.now prior cents result }
{
    let end = prior + u64::from(Amount::MAX_TENTHS);
    let mut paid = prior;
    // The price of ten tenths in cents is that of one in tenths of a cent.
    let mut left = u64::from(cents) * 10;
    for step in steps.as_slice() {
        let upper = reach(*step, end).max(paid);
        let affordable = left / u64::from(step.price);
        if affordable < upper - paid {
            return (paid - prior + affordable) as u32;
        }
        left -= (upper - paid) * u64::from(step.price);
        paid = upper;
    }
    Amount::MAX_TENTHS
}

/// What prices and purchases mean.
pub fn purchase_law()
    // Two runs cost what they cost together, or a cent more, and more tenths cost no less.
    ensures parts { (steps : List Step) (prior t u : ℕ)
        → (cost_of steps prior t + cost_of steps (prior + t) u ≡ cost_of steps prior (t + u))
        ⊎ (cost_of steps prior t + cost_of steps (prior + t) u ≡ cost_of steps prior (t + u) + 1) }
    ensures rises { (steps : List Step) (prior t u : ℕ)
        → t ≤ u → cost_of steps prior t ≤ cost_of steps prior u }

    // A purchase costs no more than the tender, and a greater tender buys no less.
    ensures within { (steps : List Step) (prior tender : ℕ) (b : Buy)
        → IsPurchase steps prior tender b → cost_of steps prior b.tenths ≤ tender }
    ensures more_for_more { (steps : List Step) (prior less more : ℕ) (b : Buy)
        → IsPurchase steps prior less b → less ≤ more
        → (c : Buy) × IsPurchase steps prior more c × (b.tenths ≤ c.tenths) }

    // There is one purchase at most, and `purchase_of` computes it.
    ensures one { (steps : List Step) (prior tender : ℕ) (b c : Buy)
        → IsPurchase steps prior tender b → IsPurchase steps prior tender c → b ≡ c }
    ensures computed { (steps : List Step) (prior tender : ℕ) (b : Buy)
        → ((purchase_of steps prior tender ≡ Some b) ↔ IsPurchase steps prior tender b) }
    ensures none { (steps : List Step) (prior tender : ℕ)
        → ((purchase_of steps prior tender ≡ None)
        ↔ ((b : Buy) → ¬ IsPurchase steps prior tender b)) }
    ensures too_little { (steps : List Step) (prior tender : ℕ)
        → ((purchase_of steps prior tender ≡ None) ↔ (tender < cost_of steps prior 1)) }
{
    amount_law();
}

//! Whether what is added is new, where something stands under its name, or why it is refused.
ghost use Rattle.std.specs.Prelude.{◌≡◌, ◌⊎◌, ℕ, List, IfErr};
ghost use Rattle.std.specs.Option.{option_copied};
ghost use Rattle.office_rules.specs.Decision.{add_meter, add_steps, add_tariff, is_new, meter_eq};
ghost use Rattle.office_rules.specs.Decision.{steps_eq};

use office_rules::{Meter, Refusal};
use sts_fields::Day;
use tariff::Steps;

/// Whether two lists of steps are the same.
pub fn same_steps(there: &Steps, steps: &Steps) -> bool
    ensures { result ≡ steps_eq there.now steps.now }
{
    there.as_slice() == steps.as_slice()
}

/// Whether two meters are the same: base, tariff and key.
pub fn same_meter(there: &Meter, meter: &Meter) -> bool
    ensures { result ≡ meter_eq there.now meter.now }
{
    there.base.year() == meter.base.year()
        && there.tariff.as_bytes() == meter.tariff.as_bytes()
        && there.key == meter.key
}

// Whether a tariff is new where these steps are under its name, or why it is refused.
pub(crate) fn is_new_tariff(steps: &Steps, there: Option<&Steps>) -> Result<bool, Refusal>
    ensures value { (name : List ℕ)
        → result ≡ is_new (add_tariff name steps.now (option_copied there.entry)) }
    ensures cause { IfErr result (λ refusal. refusal ≡ Refusal.Differs) }
{
    match there {
        None => Ok(true),
        Some(there) if same_steps(there, steps) => Ok(false),
        Some(_) => Err(Refusal::Differs),
    }
}

// The same of further steps from a day on, where it is today, and there are a tariff of the name or
// none and these steps of the same first day.
pub(crate) fn is_new_steps(
    day: Day,
    steps: &Steps,
    today: Day,
    has_tariff: bool,
    there: Option<&Steps>,
) -> Result<bool, Refusal>
    ensures value { (name : List ℕ) → result
        ≡ is_new (add_steps name day steps.now today has_tariff (option_copied there.entry)) }
    ensures causes { IfErr result (λ refusal.
        (refusal ≡ Refusal.Differs) ⊎ (refusal ≡ Refusal.NoTariff) ⊎ (refusal ≡ Refusal.DayPast)) }
{
    if !has_tariff {
        return Err(Refusal::NoTariff);
    }
    match there {
        Some(known) if same_steps(known, steps) => Ok(false),
        Some(_) => Err(Refusal::Differs),
        None if today.days() < day.days() => Ok(true),
        None => Err(Refusal::DayPast),
    }
}

// The same of a meter, where there is this one under its number, and a tariff for it or none.
pub(crate) fn is_new_meter(
    meter: &Meter,
    there: Option<Meter>,
    has_tariff: bool,
) -> Result<bool, Refusal>
    ensures value { (number : List ℕ)
        → result ≡ is_new (add_meter number meter.now there has_tariff) }
    ensures causes { IfErr result
        (λ refusal. (refusal ≡ Refusal.Differs) ⊎ (refusal ≡ Refusal.NoTariff)) }
{
    match there {
        Some(there) if same_meter(&there, meter) => Ok(false),
        Some(_) => Err(Refusal::Differs),
        None if has_tariff => Ok(true),
        None => Err(Refusal::NoTariff),
    }
}

use crate::office::Meter;
use std::marker::Model;
use tariff::Steps;

/// What a sale looks at of its meter.
#[derive(Debug, Drop)]
pub struct MeterAccount {
    pub meter: Meter,
    /// The steps of the meter's tariff on the day of the sale.
    pub steps: Steps,
    /// The greatest identifier sold to the meter under its base, at most 16777215.
    pub last: Option<u32>,
    /// The tenths sold to the meter in the month of the sale, under any base, at most 10^17.
    pub prior: u64,
}

impl Model for MeterAccount {
    ghost use Rattle.office_rules.specs.Decision.{MeterAccount};

    ghost Value = { MeterAccount };

    ghost use Rattle.std.specs.Prelude.{◌^◌, ◌≤◌};
    ghost use Rattle.std.specs.Option.{ForSome};
    ghost use Rattle.sts_fields.specs.Tid.{last_tid};

    ghost view = { λ b. record {
      meter = b.meter;
      steps = b.steps;
      last = b.last;
      prior = b.prior;
    } };

    ghost invariant = { λ b. ForSome b.last (λ tid. tid ≤ last_tid) × (b.prior ≤ 10 ^ 17) };
}

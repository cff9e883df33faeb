use std::marker::Model;
use sts_fields::Amount;

/// What a credit token carries.
///
/// Contracts see the three numbers, the amount as its tenths of a kWh.
#[derive(Clone, Copy, Debug, PartialEq, Eq, Hash)]
pub struct Fields {
    /// A nibble that is handed in, below 16. It carries nothing.
    pub rnd: u8,
    /// The token identifier, below 2^24: minutes from a base date.
    pub tid: u32,
    /// The transfer amount.
    pub amount: Amount,
}

impl Model for Fields {
    ghost use Rattle.sts_token.specs.Fields.{TokenFields};

    ghost Value = { TokenFields };

    ghost use Rattle.std.specs.Prelude.{◌<◌, ◌^◌};

    ghost view = { λ f. record { rnd = f.rnd; tid = f.tid; tenths = f.amount } };

    ghost invariant = { λ f. (f.rnd < 2 ^ 4) × (f.tid < 2 ^ 24) };

    ghost inverse = { λ v. record { rnd = v.rnd; tid = v.tid; amount = v.tenths } };
}

ghost use Rattle.std.specs.Prelude.{◌≡◌, ◌≤◌, ◌↔◌, IsSome, IfSome};
ghost use Rattle.tariff.specs.Tender.{IsTender};

use std::marker::Model;

/// The money that a customer hands over: 1 to 100000000 whole cents.
///
/// Contracts see the cents.
#[derive(Clone, Copy, Debug, PartialEq, Eq)]
pub struct Tender {
    cents: u32,
}

impl Model for Tender {
    ghost use Rattle.std.specs.Prelude.{ℕ};

    ghost Value = { ℕ };

    ghost use Rattle.tariff.specs.Tender.{IsTender};

    ghost view = { λ t. t.cents };

    ghost invariant = { λ t. IsTender t.cents };

    ghost inverse = { λ c. record { cents = c } };
}

impl Tender {
    /// The greatest tender, in whole cents.
    pub const MAX_CENTS: u64 = 100_000_000;

    /// The tender of so many whole cents, or `None` exactly outside 1 to 100000000.
    pub fn read(cents: u64) -> Option<Tender>
        ensures range { IsSome result ↔ IsTender cents }
        ensures value { IfSome result (λ tender. tender ≡ cents) }
    {
        if (1..=Self::MAX_CENTS).contains(&cents) {
            Some(Tender {
                cents: cents as u32,
            })
        } else {
            None
        }
    }

    /// The whole cents.
    pub fn cents(self) -> u32
        ensures value { result ≡ self }
        ensures range { IsTender result }
    {
        self.cents
    }
}

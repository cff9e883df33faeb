use crate::name::TariffName;
use sts_fields::Base;

/// What the office keeps of a meter, beside its number.
#[derive(Clone, Copy, Debug, PartialEq, Eq)]
pub struct Meter {
    /// The present base date: its next identifiers count from it.
    pub base: Base,
    /// The tariff that its sales are priced by.
    pub tariff: TariffName,
    /// The key that its tokens are written with.
    pub key: u64,
}

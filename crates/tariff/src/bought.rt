use sts_fields::Amount;

/// What a tender bought (`docs/PROFILE.md`, "Purchases").
#[derive(Clone, Copy, Debug, PartialEq, Eq)]
pub struct Buy {
    /// The amount, of at least a tenth of a kWh.
    pub tenths: Amount,
    /// What the amount costs, in whole cents.
    pub price: u32,
    /// What is left of the tender, in whole cents.
    pub change: u32,
}

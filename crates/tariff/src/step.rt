/// A step of a block tariff (`docs/PROFILE.md`, "Tariffs").
#[derive(Clone, Copy, Debug, PartialEq, Eq)]
pub struct Step {
    /// The upper end in tenths of a kWh per calendar month, or `None` where the step has no end.
    pub ends: Option<u32>,
    /// The price in whole cents per kWh.
    pub price: u32,
}

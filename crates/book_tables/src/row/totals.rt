/// The totals of the sales of a shift.
#[derive(Clone, Copy, Debug, PartialEq, Eq)]
pub struct Totals {
    /// How many sales there are.
    pub sales: u64,
    /// The tenths of a kWh that were sold.
    pub tenths: u64,
    /// The prices, in whole cents.
    pub cash: u64,
}

/// What a sale's running totals are with it.
#[derive(Clone, Copy, Debug, PartialEq, Eq)]
pub struct SaleTotals {
    /// The tenths of a kWh that were sold to the meter in the month.
    pub month_tenths: u64,
    /// The totals of the shift.
    pub shift: Totals,
}

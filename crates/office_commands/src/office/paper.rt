/// What `report` prints of an office, the same at every moment.
#[derive(Clone, Copy)]
pub enum Paper {
    /// The report of the shift of this number, 1 to 10^9.
    Shift(u32),
    /// The receipt of the sale of this number, 1 to 10^9.
    Receipt(u32),
    /// The totals of the shift of this number, 1 to 10^9.
    Totals(u32),
    /// All sales, as CSV.
    Sales,
}

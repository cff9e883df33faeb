use office_rules::{MeterNo, Operator, Ref, TariffName};
use tariff::Tender;

/// What is looked up in an office. Nothing is changed by it (`docs/OFFICE.md`, "Look-ups").
#[derive(Clone, Copy, Debug, PartialEq, Eq)]
pub enum Lookup {
    /// How the office is, without a read of the store.
    Health,
    /// A meter: what it has, what was sold to it in the month, and its last sale.
    Meter(MeterNo),
    /// The last sale to a meter.
    LastSale(MeterNo),
    /// The sale that an operator made under a ref.
    SaleOfRef(Operator, Ref),
    /// What a tender would buy for a meter.
    Quote(MeterNo, Tender),
    /// The running totals of the shift of a number (1 to 10^9).
    ShiftTotals(u32),
    /// A page of the tariffs whose names come after this one in the order of their bytes, or of
    /// all.
    Tariffs(Option<TariffName>),
    /// A page of the meters whose numbers come after this one, or of all.
    Meters(Option<MeterNo>),
    /// A page of the shifts after a number.
    Shifts(u32),
    /// A page of the sales after a number.
    Sales(u32),
}

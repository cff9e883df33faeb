//! The rows of all tables.

use crate::rows::{BaseRow, DatedStepRow, LastId, MonthTenths, ShiftTotals, StepRow};
use book_tables::reading::pages::MeterRow;
use office_rules::{Sale, Shift, TariffName};

/// The rows of all tables, each table read whole.
///
/// Shifts, sales and the totals of shifts come by their numbers. Of a table that the format of the
/// file lacks there are none; but each meter has its present base.
#[derive(Drop)]
pub struct OfficeRows {
    /// The names of the tariffs.
    pub tariffs: Vec<TariffName>,
    /// The steps of the tariffs.
    pub steps: Vec<StepRow>,
    /// The meters.
    pub meters: Vec<MeterRow>,
    /// The shifts.
    pub shifts: Vec<Shift>,
    /// The sales.
    pub sales: Vec<Sale>,
    /// The last identifiers of meters under their bases.
    pub last_ids: Vec<LastId>,
    /// The tenths that were sold to meters in each month.
    pub month_tenths: Vec<MonthTenths>,
    /// The totals of the shifts.
    pub shift_totals: Vec<ShiftTotals>,
    /// The bases that meters had.
    pub bases: Vec<BaseRow>,
    /// The steps of later days.
    pub dated_steps: Vec<DatedStepRow>,
}

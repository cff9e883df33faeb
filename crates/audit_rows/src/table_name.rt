ghost use Rattle.std.specs.Prelude.{◌≡◌};
ghost use Rattle.audit_rows.specs.Tables.{list_of, name_of};

/// One of the office's tables that have rows.
#[derive(Clone, Copy, Debug, PartialEq, Eq)]
pub enum TableName {
    Tariffs,
    TariffSteps,
    Meters,
    Shifts,
    Sales,
    LastIds,
    MonthTenths,
    ShiftTotals,
    MeterBases,
    DatedSteps,
}

impl TableName {
    /// The name of the table in the file.
    pub fn name(self) -> &'static str
        ensures { result.now ≡ name_of self }
    {
        match self {
            TableName::Tariffs => "tariffs",
            TableName::TariffSteps => "tariff_steps",
            TableName::Meters => "meters",
            TableName::Shifts => "shifts",
            TableName::Sales => "sales",
            TableName::LastIds => "last_ids",
            TableName::MonthTenths => "month_tenths",
            TableName::ShiftTotals => "shift_totals",
            TableName::MeterBases => "meter_bases",
            TableName::DatedSteps => "dated_steps",
        }
    }

    // The text that asks for all columns of all its rows.
    pub(crate) fn list(self) -> &'static str
        ensures { result.now ≡ list_of self }
    {
        match self {
            TableName::Tariffs => "SELECT name FROM tariffs",
            TableName::TariffSteps => "SELECT tariff, place, ends, price FROM tariff_steps",
            TableName::Meters => "SELECT meter, base, tariff, secret FROM meters",
            TableName::Shifts => {
                "SELECT number, operator, opened, closed FROM shifts ORDER BY number"
            }
            TableName::Sales => {
                "SELECT number, moment, month, shift, operator, ref, meter, base, tid, rnd, \
                 tenths, price, tender, digits FROM sales ORDER BY number"
            }
            TableName::LastIds => "SELECT meter, base, tid FROM last_ids",
            TableName::MonthTenths => "SELECT meter, month, tenths FROM month_tenths",
            TableName::ShiftTotals => {
                "SELECT shift, sales, tenths, cash FROM shift_totals ORDER BY shift"
            }
            TableName::MeterBases => "SELECT meter, base FROM meter_bases",
            TableName::DatedSteps => "SELECT tariff, day, place, ends, price FROM dated_steps",
        }
    }
}

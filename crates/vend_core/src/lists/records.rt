ghost use Rattle.vend_core.specs.Lists.PlainRows.{AreSales, HaveTariffs};

use office_rules::{Meter, MeterNo, Sale, Shift, TariffName};
use std::alloc::Global;
use sts_fields::{Base, Day};
use tariff::Steps;

/// What an office holds, in plain vectors.
#[derive(Debug, Drop)]
pub(crate) struct Records {
    /// The last one that came is in front.
    pub(crate) tariffs: Vec<(TariffName, Steps)>,
    /// The last one that came is in front.
    pub(crate) meters: Vec<(MeterNo, Meter)>,
    /// The bases that meters have or had. The last one that came is in front.
    pub(crate) bases: Vec<(MeterNo, Base)>,
    /// Further steps by their tariff and first day. The last one that came is in front.
    pub(crate) dated_steps: Vec<((TariffName, Day), Steps)>,
    /// In the order that they were opened.
    pub(crate) shifts: Vec<Shift>,
    /// In the order that they were made.
    pub(crate) sales: Vec<Sale>,
    ghost have_tariffs: { HaveTariffs tariffs.items meters.items },
    ghost are_sales: { AreSales sales.items },
}

impl Records {
    ghost use Rattle.std.specs.Prelude.{◌≡◌};
    ghost use Rattle.vend_core.specs.Lists.{recorded};
    ghost use Rattle.office_rules.specs.Office.{empty_office};

    /// Those of the empty office.
    pub(crate) fn new(alloc: Global) -> Records
        ensures { recorded result ≡ empty_office }
    {
        Records {
            tariffs: Vec::new(alloc),
            meters: Vec::new(alloc),
            bases: Vec::new(alloc),
            dated_steps: Vec::new(alloc),
            shifts: Vec::new(alloc),
            sales: Vec::new(alloc),
        }
    }
}

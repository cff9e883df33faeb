//! What is kept of the sales that were gone through.

ghost use Rattle.std.specs.Prelude.{◌≡◌, ◌++◌, ◌<◌, ◌^◌, List, [], ◌∷◌, OnOk, length};
ghost use Rattle.office_rules.specs.declared.office.sale.Sale.{Sale};
ghost use Rattle.office_rules.specs.declared.office.shift.Shift.{Shift};
ghost use Rattle.audit_lists.specs.reached.Walk.{IsWalked};

use crate::reached::lasts::{LastShifts, add_shifts};
use book_tables::Gathered;
use office_rules::{Sale, Shift};
use std::alloc::{AllocError, Global};
use std::collections::BTreeMap;

/// What is kept of some first sales of an office.
#[derive(Drop)]
pub(crate) struct Walked<'a> {
    /// Their totals.
    pub(crate) gathered: Gathered,
    /// The greatest shift that one of them was made in, or 0.
    pub(crate) latest: u32,
    /// The last one of each operator of the shifts up to that.
    pub(crate) lasts: LastShifts<'a>,
}

impl<'a> Walked<'a> {
    /// That of no sale.
    pub(crate) fn new(alloc: Global) -> Walked<'a>
        ensures { (shifts : List Shift) → IsWalked shifts [] result }
    {
        Walked {
            gathered: Gathered::new(alloc),
            latest: 0,
            lasts: BTreeMap::new(alloc),
        }
    }

    /// Adds the next sale.
    ///
    /// # Errors
    /// `AllocError` if there is no memory.
    pub(crate) fn add(&mut self, shifts: &'a [Shift], sale: &Sale) -> Result<(), AllocError>
        ensures { OnOk result ((earlier : List Sale) → length earlier < 2 ^ 32
            → IsWalked shifts.now earlier self.old
            → IsWalked shifts.now (earlier ++ sale.now ∷ []) self.new) }
    {
        self.gathered.add(sale)?;
        add_shifts(&mut self.lasts, shifts, self.latest, sale.shift)?;
        self.latest = self.latest.max(sale.shift);
        Ok(())
    }
}

//! What an edit does to the tables.

ghost use Rattle.std.specs.Prelude.{⊤};
ghost use Rattle.book_tables.specs.reading.Reading.{HasAllTables};
ghost use Rattle.book_states.specs.Changing.{MakesAsComputed};
ghost use Rattle.book_states.specs.Failing.{FailsToMakeEdit};

use book_tables::writing::additions::{add_meter, add_shift, add_tariff};
use book_tables::writing::bases::move_base;
use book_tables::writing::changes::{close_shift, set_key, set_tariff};
use book_tables::writing::dated_steps::{add_steps, withdraw_steps};
use book_tables::{TableError, members_law};
use office_rules::Edit;
use one_table::Change;
use rows::add_rows;
use sales::add_counted;
use sqlite::{Alter, Transaction};

mod rows;
mod sales;

/// An edit that is made in the tables, inside a transaction.
#[derive(Drop)]
pub(crate) struct Editing<'a> {
    pub(crate) edit: &'a Edit,
    /// The tenths that the meter of a sale had in its month before it.
    pub(crate) prior: u64,
}

impl<S: Alter> Change<S> for Editing<'_> {
    type Fault = TableError;

    ghost makes = { λ change. MakesAsComputed change.edit.now change.prior };

    ghost tells = { λ _ _ _. ⊤ };

    ghost fails = { λ change old new error.
        HasAllTables old → FailsToMakeEdit change.edit.now change.prior old new error };

    fn make(&self, tx: &mut Transaction<'_, S>) -> Result<(), TableError> {
        members_law();
        match self.edit {
            Edit::AddTariff(name, steps) => add_tariff(tx, name, steps.as_slice()),
            Edit::AddSteps(name, day, steps) => add_steps(tx, name, *day, steps.as_slice()),
            Edit::WithdrawSteps(name, day) => withdraw_steps(tx, name, *day),
            Edit::AddMeter(number, meter) => add_meter(tx, number, meter),
            Edit::AddRows(rows) => add_rows(tx, rows.as_slice()),
            Edit::SetTariff(number, name) => set_tariff(tx, number, name),
            Edit::MoveBase(number, base) => move_base(tx, number, *base),
            Edit::SetKey(number, key) => set_key(tx, number, *key),
            Edit::OpenShift(shift) => add_shift(tx, shift),
            Edit::CloseShift(number, moment) => close_shift(tx, *number, *moment),
            Edit::AddSale(sale) => add_counted(tx, sale, self.prior),
        }
    }
}

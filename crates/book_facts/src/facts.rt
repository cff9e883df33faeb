//! What the tests of a request look at, read from the tables.

ghost use Rattle.std.specs.Prelude.{◌≡◌, length};
ghost use Rattle.one_table.specs.Over.{Over};
ghost use Rattle.office_rules.specs.Decision.Facts.{AreFacts};
ghost use Rattle.book_states.specs.FactsSeen.{AreFactsSeen};
ghost use Rattle.book_states.specs.Same.{IsSame};
ghost use Rattle.book_states.specs.Spoilt.{IsSpoiltFor};
ghost use Rattle.book_facts.specs.Looking.{LooksUp};

use book_tables::TableError;
use office_rules::{Facts, Request, Stamped};
use sqlite::{Alter, Connection};
use std::alloc::Global;

pub(crate) mod accounts;
mod imports;
mod meters;
mod sales;
pub(crate) mod shifts;
pub(crate) mod steps;

/// What the tests of a request look at, as far as they do and no further. The count of sales is the
/// caller's.
///
/// # Errors
/// `TableError::Database` if the database refuses or fails, or memory runs out.
/// `TableError::RowOfNoOffice` if a row that was found is no office's.
// The facts are large: they stay where they are written, and no other function has room for them.
#[inline(never)]
pub(crate) fn facts_of<S: Alter>(
    alloc: Global,
    conn: &mut Connection<S>,
    at: &Stamped,
    sale_count: u64,
) -> Result<Facts, TableError>
    ensures { Over S.Store conn (λ old new. LooksUp IsSame (λ o f. sale_count ≡ length o.sales
        → AreFacts o at.now f) (AreFactsSeen sale_count at.now) (IsSpoiltFor at.now) old new
        result) }
{
    match &at.request {
        Request::AddTariff(name, _) => meters::tariff_facts(alloc, conn, name),
        Request::AddSteps(name, day, _) => steps::dated_facts(alloc, conn, name, *day),
        Request::WithdrawSteps(name, day) => steps::withdrawal_facts(alloc, conn, name, *day),
        Request::AddMeter(number, meter) => meters::meter_facts(conn, number, meter),
        Request::Import(rows) => imports::import_facts(alloc, conn, rows),
        Request::SetTariff(number, name) => meters::setting_facts(conn, number, name),
        Request::MoveBase(number, _) => meters::moving_facts(conn, number),
        Request::SetKey(number, key) => meters::key_facts(conn, number, *key),
        Request::OpenShift(operator) => shifts::opening_facts(conn, operator),
        Request::CloseShift(operator) => shifts::closing_facts(conn, operator),
        Request::Sell(order) => { sales::sale_facts(alloc, conn, at.moment, order, sale_count) },
        Request::Reprint(number) => sales::reprint_facts(conn, *number),
        Request::ShiftReport(number) => shifts::report_facts(alloc, conn, *number),
    }
}

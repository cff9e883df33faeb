//! The running totals, which have to be those of the sales.

ghost use Rattle.std.specs.Prelude.{◌≡◌, ◌≤◌, IfErr, IfOk, IsSome, OnOk, Some, length};
ghost use Rattle.office_rules.specs.Office.{greatest_count};
ghost use Rattle.book_tables.specs.row.Gathered.{IsGathered};
ghost use Rattle.audit_lists.specs.Ties.{AreKept, FindsFirst, IsFirst, IsTieKept, Says, each};
ghost use Rattle.audit_lists.specs.Ties.{listed};
ghost use Rattle.audit_lists.specs.totals.Rules.{sum_rules, total_rules};
ghost use Rattle.audit_rows.specs.declared.finding.Rule.TheVariants as rule;

use crate::fault::{OfficeFault, found};
use crate::places::{first_astray, places_of};
use crate::totals::summed::Summed;
use audit_rows::{Finding, OfficeRows, Rule};
use book_tables::Gathered;
use office_rules::Sale;
use std::alloc::{AllocError, Global};

mod summed;

/// Nothing where the rows of the running totals are those of the sales, of which there are no more
/// than an office has; or the first that breaks a rule.
///
/// # Errors
/// `OfficeFault::Found` with the first row that breaks a rule, `OfficeFault::Memory` if there is no
/// memory.
pub(crate) fn test_totals(alloc: Global, rows: &OfficeRows) -> Result<(), OfficeFault>
    requires { length rows.now.sales.items ≤ greatest_count }
    ensures passes { OnOk result (AreKept (total_rules rows.now)) }
    ensures found { IfErr result (Says (FindsFirst (total_rules rows.now))) }
{
    let sales = rows.sales.as_slice();
    let gathered = gathered_of(alloc, sales)?;
    test_table(alloc, sales, &rows.last_ids, &gathered)?;
    test_table(alloc, sales, &rows.month_tenths, &gathered)?;
    test_table(alloc, sales, &rows.shift_totals, &gathered)
}

// The running totals of the sales.
fn gathered_of(alloc: Global, sales: &[Sale]) -> Result<Gathered, AllocError>
    requires { length sales.now ≤ greatest_count }
    ensures { IfOk result (IsGathered sales.now) }
{
    let mut gathered = Gathered::new(alloc);
    gathered.add_all(sales)?;
    Ok(gathered)
}

// Nothing where the rows of a table are the totals of the sales; or the first that breaks a rule.
fn test_table<T: Summed>(
    alloc: Global,
    sales: &[Sale],
    rows: &[T],
    gathered: &Gathered,
) -> Result<(), OfficeFault>
    requires { IsGathered sales.now gathered.now }
    ensures passes { OnOk result (AreKept (sum_rules (listed T.name T.key rows.now)
        T.Key.key T.asked T.SaleKey.key sales.now (T.has sales.now) T.told)) }
    ensures found { IfErr result (Says (FindsFirst (sum_rules (listed T.name T.key rows.now)
        T.Key.key T.asked T.SaleKey.key sales.now (T.has sales.now) T.told))) }
{
    let places = places_of::<T, T::Key>(alloc, rows, Rule::Twice)?;
    test_keys(sales, rows, gathered)?;
    test_told(sales, rows, gathered)?;
    match first_astray::<Sale, T::SaleKey, T, T::Key>(sales, rows, &places) {
        None => Ok(()),
        Some(sale) => Err(OfficeFault::Found(Finding {
            table: T::table(),
            rule: Rule::Missing,
            row: T::asked(sale),
        })),
    }
}

// Nothing where the sales have the key of each row; or the first whose key none has.
fn test_keys<T: Summed>(sales: &[Sale], rows: &[T], gathered: &Gathered) -> Result<(), Finding>
    requires { IsGathered sales.now gathered.now }
    ensures passes { OnOk result (IsTieKept (each (listed T.name T.key rows.now) rule.Surplus
        (λ row. IsSome (T.has sales.now row)))) }
    ensures found { IfErr result (IsFirst (each (listed T.name T.key rows.now) rule.Surplus
        (λ row. IsSome (T.has sales.now row)))) }
{
    'rows: for at in 0..rows.len() {
        if !rows[at].has_sales(gathered) {
            return Err(found(&rows[at], Rule::Surplus));
        }
    }
    Ok(())
}

// Nothing where each row tells what the sales of its key come to; or the first that does not.
fn test_told<T: Summed>(sales: &[Sale], rows: &[T], gathered: &Gathered) -> Result<(), Finding>
    requires { IsGathered sales.now gathered.now }
    ensures passes { OnOk result (IsTieKept (each (listed T.name T.key rows.now) rule.Total
        (λ row. T.has sales.now row ≡ Some (T.told row)))) }
    ensures found { IfErr result (IsFirst (each (listed T.name T.key rows.now) rule.Total
        (λ row. T.has sales.now row ≡ Some (T.told row)))) }
{
    'rows: for at in 0..rows.len() {
        if !rows[at].is_told(gathered) {
            return Err(found(&rows[at], Rule::Total));
        }
    }
    Ok(())
}

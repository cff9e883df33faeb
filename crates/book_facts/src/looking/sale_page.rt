//! A page of the sales.

ghost use Rattle.sqlite.specs.State.{IsUnchanged};
ghost use Rattle.one_table.specs.Over.{Over};
ghost use Rattle.book_facts.specs.Lookups.{FindsSales};
ghost use Rattle.book_facts.specs.Looking.{LooksUpByRules};
ghost use Rattle.book_facts.specs.LookupsSeen.{AreSalesSpoilt, FindsSalesSeen};

use book_lists::PAGE;
use book_states::Found;
use book_tables::TableError;
use book_tables::reading::sale_lists;
use office_rules::Refusal;
use sqlite::{Alter, Connection};
use std::alloc::Global;

/// A page of the sales after a number.
pub(crate) fn sale_page<S: Alter>(
    alloc: Global,
    conn: &mut Connection<S>,
    after: u32,
) -> Result<Result<Found, Refusal>, TableError>
    ensures { Over S.Store conn (λ old new. LooksUpByRules IsUnchanged (λ o. FindsSales o after)
        (FindsSalesSeen after) (AreSalesSpoilt after) old new result) }
{
    let sales = sale_lists::sales_after(alloc, conn, after, PAGE)?;
    Ok(Ok(Found::Sales(sales)))
}

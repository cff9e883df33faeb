//! A page of sales.

ghost use Rattle.std.specs.Prelude.{◌≡◌, IfOk, false};
ghost use Rattle.sqlite.specs.State.{HasCleanDisk};
ghost use Rattle.one_table.specs.Over.{Over};
ghost use Rattle.office_rules.specs.Office.{Office};
ghost use Rattle.office_rules.specs.Law.Store.{sales_above};
ghost use Rattle.book_tables.specs.reading.Questions.{the_sales_after};
ghost use Rattle.book_tables.specs.reading.Seen.{HasSpoilt, ShowsAll};
ghost use Rattle.book_states.specs.Stores.{Stores};
ghost use Rattle.book_facts.specs.Looking.{TellsTables};

use book_states::refusal_of;
use book_tables::reading::sale_lists;
use office_rules::{Refusal, Sale};
use sqlite::{Alter, Connection};
use std::alloc::Global;

/// A page of the tables' sales: the first above a number, by number, at most so many (1 to 1000).
///
/// # Errors
/// `Store` and `Memory`.
pub fn page<S: Alter>(
    alloc: Global,
    conn: &mut Connection<S>,
    number: u32,
    limit: u32,
) -> Result<Vec<Sale>, Refusal>
    requires { conn.old.in_transaction ≡ false }
    ensures given { Over S.Store conn (λ old new. HasCleanDisk new → (o : Office) → Stores old o
        → IfOk result (λ sales. sales.items ≡ sales_above o number limit)) }
    ensures tells { Over S.Store conn (λ old new. TellsTables (λ why. ⊥) (λ db given. IfOk given
        (λ sales. ShowsAll (the_sales_after number limit) db sales.items))
        (HasSpoilt (the_sales_after number limit)) old new result) }
{
    // Outside a transaction an open connection has what was committed last.
    let _settled = conn.is_autocommit();
    match sale_lists::sales_after(alloc, conn, number, limit) {
        Ok(sales) => Ok(sales),
        Err(error) => Err(refusal_of(error)),
    }
}

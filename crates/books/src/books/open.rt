//! The opening of an office over a connection.

ghost use Rattle.std.specs.Prelude.{◌≡◌, false, IfOk, IfErr};
ghost use Rattle.books.specs.Opens.{OpensOver, RefusesOver};

use crate::books::Books;
use book_opening::{OpenFault, next_here};
use sqlite::{Alter, Connection};
use std::alloc::Global;
use sts_token::BlockTransform;
use vend_core::life_law;

impl<S: Alter, T: BlockTransform + Drop> Books<S, T> {
    /// Opens the office that the connection's database stands for. In a database that has none of
    /// the office's tables it is the empty one, whose tables are made in one commit. One of an
    /// older format is brought to the present one, also in one commit. Tables of other names stay
    /// as they are. The connection has to be in no transaction (`is_autocommit`).
    ///
    /// # Errors
    /// `NotAnOffice` where the database stands for no office; `Store` and `Memory`. The connection
    /// comes back, and its store stands for what it stood for.
    pub fn open_from(
        alloc: Global,
        mut conn: Connection<S>,
        transform: T,
    ) -> Result<Books<S, T>, (OpenFault, Connection<S>)>
        requires outside { conn.in_transaction ≡ false }
        ensures opened { IfOk result (OpensOver conn (T.forwards transform)) }
        ensures refused { IfErr result (λ e. RefusesOver S.Store conn e.1 e.0) }
    {
        life_law();
        match next_here(alloc, &mut conn) {
            Ok(sold) => Ok(Books {
                alloc,
                conn,
                transform,
                next_number: sold.next_number,
                last_moment: sold.last_moment,
                stopped: false,
                write_failed: false,
            }),
            Err(fault) => Err((fault, conn)),
        }
    }
}

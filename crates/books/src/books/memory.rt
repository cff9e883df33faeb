//! An office in memory.

ghost use Rattle.std.specs.Prelude.{◌≡◌, ◌⊎◌, None, IfOk, IfErr};
ghost use Rattle.office_rules.specs.Office.{empty_office};
ghost use Rattle.books.specs.Keeps.{seen};
ghost use Rattle.books.specs.Opens.{AreOpened};

use crate::books::Books;
use book_opening::OpenFault;
use book_tables::stands_law;
use sqlite::{Connection, MemStore};
use std::alloc::Global;
use sts_token::BlockTransform;

impl<T: BlockTransform + Drop> Books<MemStore, T> {
    /// Begins the empty office in memory, which is gone with the books.
    ///
    /// # Errors
    /// `Store` and `Memory`.
    pub fn in_memory(alloc: Global, transform: T) -> Result<Books<MemStore, T>, OpenFault>
        ensures opened { IfOk result (AreOpened (λ o. o ≡ empty_office) (T.forwards transform)) }
        ensures unlimited { IfOk result (λ books. (seen books).state.step_limit ≡ None) }
        ensures faults { IfErr result
            (λ fault. (fault ≡ OpenFault.Store) ⊎ (fault ≡ OpenFault.Memory)) }
    {
        stands_law();
        let Ok(conn) = Connection::open_in_memory(alloc) else {
            return Err(OpenFault::Memory);
        };
        match Books::open_from(alloc, conn, transform) {
            Ok(books) => Ok(books),
            Err((fault, _)) => Err(fault),
        }
    }
}

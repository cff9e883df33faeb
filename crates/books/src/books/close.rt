//! The end of a life: the connection comes back.

ghost use Rattle.std.specs.Prelude.{◌≡◌, false};
ghost use Rattle.sqlite_trees.specs.Tree.{Trees};
ghost use Rattle.sqlite.specs.State.{HasCleanDisk};
ghost use Rattle.sqlite.specs.Held.{state};
ghost use Rattle.vend_core.specs.Law.Life.{Life, MayLeave, present};
ghost use Rattle.office_rules.specs.Office.{Office};
ghost use Rattle.books.specs.Keeps.{Represents, seen};
ghost use Rattle.book_states.specs.Stores.{RecoversTo, StoreStandsFor};

use crate::books::Books;
use sqlite::{Alter, Connection};
use sts_token::BlockTransform;

impl<S: Alter, T: BlockTransform + Drop> Books<S, T> {
    /// The connection to the database that has the office. It is in no transaction. Unless the
    /// books are stopped, the store stands for the present office of each life that they keep.
    ///
    /// It takes no memory.
    pub fn into_connection(self) -> Connection<S>
        ensures same { result ≡ self.conn }
        ensures rests { result.in_transaction ≡ false }
        ensures left { (life : Life) → Represents life (seen self)
            → HasCleanDisk (state S.Store result)
            → (trees : Trees) → (state S.Store result).may_leave trees
            → (o : Office) × MayLeave life o × RecoversTo trees o }
        ensures holds { (life : Life) → Represents life (seen self)
            → HasCleanDisk (state S.Store result) → self.stopped ≡ false
            → StoreStandsFor (state S.Store result) (present life) }
    {
        let Books { conn, .. } = self;
        conn
    }
}

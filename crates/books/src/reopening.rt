ghost use Rattle.std.specs.Prelude.{◌≡◌};
ghost use Rattle.sqlite_trees.specs.Tree.{Trees};
ghost use Rattle.sqlite_wal.specs.Recovery.{Image};
ghost use Rattle.sqlite.specs.Files.{HoldsDatabase, IsNothing};
ghost use Rattle.sqlite.specs.Held.{Held, state};
ghost use Rattle.sqlite.specs.State.{IsLive, Opens};
ghost use Rattle.kept_order.specs.InOrder.{HasTablesInOrder};
ghost use Rattle.office_rules.specs.Office.{Office, empty_office};
ghost use Rattle.book_states.specs.Stores.{RecoversTo, StoreStandsFor};
ghost use Rattle.books.specs.Found.{FindsOffice};
ghost use Rattle.books.specs.Path.{StandsIn};

use book_tables::stands_law;
use kept_order::{KeepsOrder, order_law};
use sqlite::Alter;

/// What an opening finds of what a stop left.
pub fn opening_law<S: Alter>()
    // What is left stands for one office, and a connection that is opened on it stands for that.
    ensures one_office { (trees : Trees) (o p : Office)
        → RecoversTo trees o → RecoversTo trees p → o ≡ p }
    ensures opens_again { (c : Held S) (o : Office)
        → Opens (state S.Store c) → IsLive (state S.Store c)
        → RecoversTo (state S.Store c).committed.trees o → StoreStandsFor (state S.Store c) o }

    // So do the two files of a database that is left, and files in which nothing was made yet
    // stand for the empty office.
    ensures held { (image : Image) (trees : Trees) (o : Office)
        → HoldsDatabase image trees → RecoversTo trees o → StandsIn image o }
    ensures new { (image : Image) → IsNothing image → StandsIn image empty_office }
{
    stands_law();
}

/// What an opening finds of what nobody wrote down, over a store that keeps the rows of each table
/// in the order of their numbers: it stands for the office that its tables show.
pub fn found_law<S: KeepsOrder>()
    ensures left { (c : Held S) (trees : Trees) (o : Office)
        → (state S.Store c).may_leave trees → FindsOffice trees o → RecoversTo trees o }
    ensures opens { (c : Held S) (o : Office)
        → Opens (state S.Store c) → IsLive (state S.Store c)
        → FindsOffice (state S.Store c).committed.trees o → StoreStandsFor (state S.Store c) o }
    ensures in_order { (c : Held S) → Opens (state S.Store c) → IsLive (state S.Store c)
        → HasTablesInOrder (state S.Store c).now }

    // What stands for an office shows it, over any store.
    ensures shows { (trees : Trees) (o : Office) → RecoversTo trees o → FindsOffice trees o }
{
    opening_law::<S>();
    order_law::<S>();
}

ghost use Rattle.std.specs.Prelude.{◌≡◌, ℕ, false, IsTrue};
ghost use Rattle.sqlite.specs.Effect.{Database, IsDatabase};
ghost use Rattle.sqlite.specs.Held.{Held, state};
ghost use Rattle.sqlite.specs.State.{IsLive};
ghost use Rattle.sqlite_catalog.specs.Listing.{IsSound};
ghost use Rattle.sqlite_schema.specs.declared.schema.Schema.{Schema};
ghost use Rattle.sqlite_schema.specs.declared.schema.Table.{Table};
ghost use Rattle.sqlite_trees.specs.Tree.{Trees};
ghost use Rattle.one_table.specs.Numbered.{IsInOrder};
ghost use Rattle.one_table.specs.Place.{Has};
ghost use Rattle.one_table.specs.Standing.{Stands, tree_in};
ghost use Rattle.kept_order.specs.InOrder.{AreTreesInOrder, HasTablesInOrder};

use sqlite::{Alter, Connection, FileStore, MemStore};
use sqlite_disk::Disk;

/// A store that keeps the rows of each table in the order of their numbers.
pub trait KeepsOrder: Alter {
    // all that a stop may leave is in order
    ghost kept: { (s : Self) (trees : Trees) (schema : Schema)
        → Self.Store.recovers s trees → IsSound schema trees → AreTreesInOrder schema trees };
}

impl<D: Disk> KeepsOrder for FileStore<D> {
    ghost use Rattle.kept_order.specs.FileLaws.{file_in_order};

    ghost kept = { file_in_order };
}

impl KeepsOrder for MemStore {
    ghost use Rattle.kept_order.specs.MemoryLaws.{memory_in_order};

    ghost kept = { memory_in_order };
}

/// Where the rows of tables are in order, over a store that keeps them so.
pub fn order_law<S: KeepsOrder>()
    // Each database that a stop may leave has its tables in order.
    ensures left { (c : Held S) (db : Database)
        → (state S.Store c).may_leave db.trees → IsDatabase db → HasTablesInOrder db }

    // So has the last commit of an open connection, and what it has outside a transaction.
    ensures committed { (c : Held S) → IsTrue (state S.Store c).is_open
        → IsLive (state S.Store c) → HasTablesInOrder (state S.Store c).committed }
    ensures now { (c : Held S) → IsTrue (state S.Store c).is_open
        → IsLive (state S.Store c) → (state S.Store c).now ≡ (state S.Store c).committed
        → HasTablesInOrder (state S.Store c).now }

    // Each table that is found there has its rows in order.
    ensures table { (db : Database) (at : ℕ) (t : Table)
        → HasTablesInOrder db → Has db.schema at t → IsInOrder (db.trees t.tree) }
    ensures stands { (db : Database) (t : Table)
        → HasTablesInOrder db → Stands db.schema t
        → IsInOrder (db.trees (tree_in db.schema t.name)) }
{}

/// What a connection has is in order, as far as it is committed.
pub fn connection_order_law<S: KeepsOrder>(conn: &Connection<S>)
    ensures committed { IsTrue (state S.Store conn.now).is_open
        → HasTablesInOrder (state S.Store conn.now).committed }
    ensures now { IsTrue (state S.Store conn.now).is_open → conn.now.in_transaction ≡ false
        → HasTablesInOrder (state S.Store conn.now).now }
{
    let _live = conn.schema();
    let _settled = conn.is_autocommit();
}

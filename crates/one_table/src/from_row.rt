ghost use Rattle.std.specs.Prelude.{List, IfOk, IfErr};
ghost use Rattle.sqlite_value.specs.declared.value.Value.{Value};
ghost use Rattle.one_table.specs.ReadFaults.{OnlyWhere};

use crate::read_fault::ReadFault;
use sqlite::Row;

/// A value that a row of an answer may stand for.
pub trait FromRow: Sized {
    // Whether the row stands for this value, and whether it can stand for any.
    ghost reads_as: { List Value → Self → Type 0 };

    ghost is_readable: { List Value → Type 0 };

    /// The value, or `ReadFault::Row` where the row stands for none.
    fn from_row(row: &Row) -> Result<Self, ReadFault>
        ensures ok { IfOk result (reads_as row.now) }
        ensures err { IfErr result (OnlyWhere (¬ is_readable row.now)) };
}

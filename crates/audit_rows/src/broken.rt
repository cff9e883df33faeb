//! What is told of a row that shows no record.

ghost use Rattle.audit_rows.specs.Breaks.{IsBroken, ShowsOf};

use crate::finding::{Finding, RowKey, Rule};
use crate::named::Named;
use crate::sale_row::sale_row_of;
use crate::table_name::TableName;
use sqlite::Row;

// The rule that it breaks, and its key: of a sale in another month its number.
pub(crate) fn broken(table: TableName, row: Row) -> Finding
    ensures { ¬ ShowsOf table row → IsBroken table row result }
{
    if table == TableName::Sales
        && let Some(read) = sale_row_of(&row)
    {
        return Finding {
            table,
            rule: Rule::Month,
            row: read.key(),
        };
    }
    Finding {
        table,
        rule: Rule::Value,
        row: RowKey::Columns(row),
    }
}

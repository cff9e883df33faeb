//! Whether the tables that some texts define stand in a database, all of them and exactly so.
ghost use Rattle.std.specs.Prelude.{◌≡◌, ◌≢◌, ◌↔◌, ◌==◌, List, Err, map, IsTrue, IfOk, IfErr};
ghost use Rattle.std.specs.List.{AllByRecursion, list_all};
ghost use Rattle.sqlite_resolve.specs.Compile.{table_defined_by};
ghost use Rattle.sqlite_schema.specs.declared.schema.Table.{Table};
ghost use Rattle.one_table.specs.Making.{AreDefined};
ghost use Rattle.one_table.specs.Comparing.{StandsAs};
ghost use Rattle.one_table.specs.Referring.{is_left_alone};
ghost use Rattle.one_table.specs.Standing.{tree_in};

use crate::inspect::{is_table_left_alone, stands};
use sqlite_resolve::{CompileError, define_table};
use sqlite_schema::schema::Schema;
use std::alloc::Global;

fn stands_as(alloc: Global, schema: &Schema, text: &str) -> Result<bool, CompileError>
    ensures told { IfOk result (λ all. IsTrue all ↔ StandsAs schema.now text.now) }
    ensures failed { IfErr result
        (λ e. e ≢ CompileError.OutOfMemory → table_defined_by text.now ≡ Err e) }
{
    let table = define_table(alloc, text.as_bytes())?;
    Ok(stands(schema, &table))
}

/// Whether each table that a text defines stands.
///
/// # Errors
/// `CompileError::OutOfMemory` if there is no memory; another `CompileError` only if a text defines
/// no table.
pub fn stand(alloc: Global, schema: &Schema, texts: &[&str]) -> Result<bool, CompileError>
    ensures told { IfOk result
        (λ all. IsTrue all ↔ AllByRecursion (λ text. StandsAs schema.now text.now) texts.now) }
    ensures failed { IfErr result
        (λ e. (ts : List Table) → AreDefined (map (λ t. t.now) texts.now) ts
        → ¬ (e ≢ CompileError.OutOfMemory)) }
{
    for text in texts {
        if !stands_as(alloc, schema, text)? {
            return Ok(false);
        }
    }
    Ok(true)
}

/// Whether no reference to a table of one of these names takes an action. The tables have to be
/// there.
pub fn are_left_alone(schema: &Schema, names: &[&str]) -> bool
    ensures { result ≡ list_all (λ name. is_left_alone schema.now (tree_in schema.now name.now))
        names.now }
{
    for name in names {
        if !is_table_left_alone(schema, name) {
            return false;
        }
    }
    true
}

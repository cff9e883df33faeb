//! Tests of a schema that was found in a file: which names are free, which tables stand in it
//! exactly so, and which references there are.
ghost use Rattle.std.specs.Prelude.{◌≡◌, ◌↔◌, ◌==◌, ◌||◌, ◌<◌, true, not, Option, None, Some, find};
ghost use Rattle.std.specs.Prelude.{map, slice_get, slice_index_or, IsTrue};
ghost use Rattle.std.specs.List.{list_all};
ghost use Rattle.std.specs.Option.{option_copied};
ghost use Rattle.sqlite_value.specs.Keys.{plain};
ghost use Rattle.sqlite_catalog.specs.Change.{is_used};
ghost use Rattle.one_table.specs.Comparing.{IsPlainTable, IsOwnTree, StandsAt};
ghost use Rattle.one_table.specs.Referring.{is_among, is_apart, is_unreferred, is_no_action};
ghost use Rattle.one_table.specs.Referring.{is_idle, points_to, is_harmless, is_left_alone};
ghost use Rattle.one_table.specs.Standing.{key_of, own_keys, keys_on, tree_in, Stands};

use crate::compare::{is_table, same_places};
use sqlite_items::Items;
use sqlite_schema::names::same_name;
use sqlite_schema::schema::{Action, Index, Reference, Schema, Table};
use sqlite_value::keys::Order;

fn is_used(schema: &Schema, name: &str) -> bool
    ensures { result ≡ is_used schema.now name.now }
{
    let name = name.as_bytes();
    schema.table_named(name).is_some()
        || schema.index_named(name).is_some()
        || schema.view_named(name).is_some()
}

/// Whether no table, index or view has one of these names.
pub fn are_free(schema: &Schema, names: &[&str]) -> bool
    ensures { result ≡ list_all (λ name. not (is_used schema.now name))
        (map (λ n. n.now) names.now) }
{
    for name in names {
        if is_used(schema, name) {
            return false;
        }
    }
    true
}

fn is_among(names: &[&str], name: &[u8]) -> bool
    ensures { result ≡ is_among (map (λ n. n.now) names.now) name.now }
{
    for one in names {
        if same_name(name, one.as_bytes()) {
            return true;
        }
    }
    false
}

fn refer_elsewhere(names: &[&str], references: &[Reference]) -> bool
    ensures { result ≡ list_all (λ r. not (is_among (map (λ n. n.now) names.now) r.parent))
        references.now }
{
    for reference in references {
        if is_among(names, reference.parent.as_slice()) {
            return false;
        }
    }
    true
}

fn is_apart(names: &[&str], table: &Table) -> bool
    ensures { result ≡ is_apart (map (λ n. n.now) names.now) table.now }
{
    is_among(names, table.name.as_slice()) || refer_elsewhere(names, table.references.as_slice())
}

/// Whether no table of another name refers to one of these names, be there such a table or not.
pub fn is_unreferred(schema: &Schema, names: &[&str]) -> bool
    ensures { result ≡ is_unreferred (map (λ n. n.now) names.now) schema.now }
{
    for table in schema.tables.as_slice() {
        if !is_apart(names, table) {
            return false;
        }
    }
    true
}

fn is_no_action(action: Action) -> bool
    ensures { result ≡ is_no_action action }
{
    matches!(action, Action::NoAction)
}

fn is_idle(reference: &Reference) -> bool
    ensures { result ≡ is_idle reference.now }
{
    is_no_action(reference.on_delete) && is_no_action(reference.on_update)
}

fn are_harmless(names: &[&str], references: &[Reference]) -> bool
    ensures { result ≡ list_all (λ r. is_idle r || not (is_among (map (λ n. n.now) names.now)
        r.parent)) references.now }
{
    for reference in references {
        if !is_idle(reference) && is_among(names, reference.parent.as_slice()) {
            return false;
        }
    }
    true
}

/// Whether no reference to one of these names takes an action, be there such a table or not.
pub fn is_harmless(schema: &Schema, names: &[&str]) -> bool
    ensures { result ≡ is_harmless (map (λ n. n.now) names.now) schema.now }
{
    for table in schema.tables.as_slice() {
        if !are_harmless(names, table.references.as_slice()) {
            return false;
        }
    }
    true
}

fn points_to(schema: &Schema, tree: u32, reference: &Reference) -> bool
    ensures { result ≡ points_to schema.now tree reference.now }
{
    let parent = reference.parent.as_slice();
    match schema.tables.as_slice().iter().find(|t| t.is_named(parent)) {
        Some(table) => table.tree == tree,
        None => false,
    }
}

fn leave_alone(schema: &Schema, tree: u32, references: &[Reference]) -> bool
    ensures { result ≡ list_all (λ r. is_idle r || not (points_to schema.now tree r))
        references.now }
{
    for reference in references {
        if !is_idle(reference) && points_to(schema, tree, reference) {
            return false;
        }
    }
    true
}

fn is_left_alone(schema: &Schema, tree: u32) -> bool
    ensures { result ≡ is_left_alone schema.now tree }
{
    for table in schema.tables.as_slice() {
        if !leave_alone(schema, tree, table.references.as_slice()) {
            return false;
        }
    }
    true
}

fn tree_in(schema: &Schema, name: &str) -> u32
    ensures { result ≡ tree_in schema.now name.now }
{
    let at = schema.table_named(name.as_bytes()).unwrap_or(0);
    match schema.tables.get(at) {
        Some(table) => table.tree,
        None => 0,
    }
}

/// Whether no reference to the table of this name takes an action, as CASCADE, where a row that it
/// points to is changed or deleted. The table has to be there: of another name it says nothing.
pub fn is_table_left_alone(schema: &Schema, name: &str) -> bool
    ensures { result ≡ is_left_alone schema.now (tree_in schema.now name.now) }
{
    is_left_alone(schema, tree_in(schema, name))
}

fn is_key(index: &Index, columns: &Items<usize>, order: Order) -> bool
    ensures { IsTrue result ↔ (key_of index.now ≡ (true, columns.now, order)) }
{
    index.is_unique && same_places(&index.columns, columns) && index.order == order
}

fn order_of_key(table: &Table, number: usize) -> Order
    ensures { result ≡ slice_index_or table.now.orders number plain }
{
    match table.orders.get(number) {
        Some(order) => *order,
        None => Order { digits: 0 },
    }
}

// The index is the one that the table's UNIQUE of this number makes.
fn is_own_key(index: &Index, table: &Table, number: usize) -> bool
    ensures { IsTrue result ↔ (slice_get (own_keys table.now) number ≡ Some (key_of index.now)) }
{
    match table.uniques.get(number) {
        Some(columns) => is_key(index, columns, order_of_key(table, number)),
        None => false,
    }
}

fn has_own_keys(schema: &Schema, tree: u32, table: &Table) -> bool
    ensures { IsTrue result ↔ (keys_on schema.now tree ≡ own_keys table.now) }
{
    let mut next = 0;
    for index in schema.indexes.as_slice() {
        if index.table == tree {
            if !is_own_key(index, table, next) {
                return false;
            }
            next += 1;
        }
    }
    next == table.uniques.len()
}

// The trees that the store numbers are below this.
const TREES: u32 = 0x8000_0000;

fn first_of_tree(tables: &[Table], tree: u32) -> Option<&Table>
    ensures { option_copied result ≡ find (λ t. t.tree == tree) tables.now }
{
    tables.iter().find(|t| t.tree == tree)
}

fn is_own_tree(schema: &Schema, tree: u32, table: &Table) -> bool
    ensures { IsTrue result ↔ IsOwnTree schema.now tree table.now }
{
    match first_of_tree(schema.tables.as_slice(), tree) {
        Some(first) => tree < TREES && is_table(first, table),
        None => false,
    }
}

fn stands_at(schema: &Schema, found: &Table, table: &Table) -> bool
    ensures { IsTrue result ↔ StandsAt schema.now found.now table.now }
{
    if !is_table(found, table) {
        return false;
    }
    is_own_tree(schema, found.tree, table) && has_own_keys(schema, found.tree, table)
}

/// Whether the table stands in the database exactly as it was defined, but for its tree: it is the
/// first of its name and of its tree, and has no index but those of its own UNIQUE.
///
/// A wanted table that has a default, a CHECK or a column that reads the time stands in none.
pub fn stands(schema: &Schema, table: &Table) -> bool
    ensures { IsTrue result ↔ (Stands schema.now table.now × IsPlainTable table.now) }
{
    let Some(at) = schema.table_named(table.name.as_slice()) else {
        return false;
    };
    match schema.tables.get(at) {
        Some(found) => stands_at(schema, found, table),
        None => false,
    }
}

//! Whether a found table is the one that a text defines, but for the tree that has its rows.
ghost use Rattle.std.specs.Prelude.{◌≡◌, ◌↔◌, true, [], IsTrue};
ghost use Rattle.std.specs.List.{list_all};
ghost use Rattle.one_table.specs.Comparing.{is_null, has_no_default, HasSameRows, HasSameRules};
ghost use Rattle.one_table.specs.Comparing.{IsPlainTable, IsAlike};

use sqlite_items::Items;
use sqlite_schema::code::Terms;
use sqlite_schema::schema::{Column, Reference, Stamps, Table};
use sqlite_value::keys::Order;
use sqlite_value::value::{Bytes, Value};

fn is_null(value: &Value) -> bool
    ensures { result ≡ is_null value.now }
{
    matches!(value, Value::Null)
}

fn has_no_terms(terms: &Terms) -> bool
    ensures { IsTrue result ↔ (terms.now ≡ []) }
{
    terms.roots.is_empty()
}

fn same_bytes(a: &Bytes, b: &Bytes) -> bool
    ensures { IsTrue result ↔ (a.now ≡ b.now) }
{
    a.as_slice() == b.as_slice()
}

pub(crate) fn same_places(a: &Items<usize>, b: &Items<usize>) -> bool
    ensures { IsTrue result ↔ (a.now ≡ b.now) }
{
    a.as_slice() == b.as_slice()
}

fn same_column(a: &Column, b: &Column) -> bool
    ensures { IsTrue result ↔ ((a.now ≡ b.now) × (has_no_default b.now ≡ true)) }
{
    if !same_bytes(&a.name, &b.name) {
        return false;
    }
    if a.kind != b.kind || a.collation != b.collation {
        return false;
    }
    if a.is_strict != b.is_strict || a.not_null != b.not_null {
        return false;
    }
    is_null(&a.default) && is_null(&b.default)
}

fn same_columns(a: &[Column], b: &[Column]) -> bool
    ensures { IsTrue result ↔ ((a.now ≡ b.now) × (list_all has_no_default b.now ≡ true)) }
{
    if a.len() != b.len() {
        return false;
    }
    for at in 0..a.len() {
        if !same_column(&a[at], &b[at]) {
            return false;
        }
    }
    true
}

fn same_names(a: &[Bytes], b: &[Bytes]) -> bool
    ensures { IsTrue result ↔ (a.now ≡ b.now) }
{
    if a.len() != b.len() {
        return false;
    }
    for at in 0..a.len() {
        if !same_bytes(&a[at], &b[at]) {
            return false;
        }
    }
    true
}

fn same_keys(a: &[Items<usize>], b: &[Items<usize>]) -> bool
    ensures { IsTrue result ↔ (a.now ≡ b.now) }
{
    if a.len() != b.len() {
        return false;
    }
    for at in 0..a.len() {
        if !same_places(&a[at], &b[at]) {
            return false;
        }
    }
    true
}

fn same_orders(a: &[Order], b: &[Order]) -> bool
    ensures { IsTrue result ↔ (a.now ≡ b.now) }
{
    if a.len() != b.len() {
        return false;
    }
    for at in 0..a.len() {
        if a[at] != b[at] {
            return false;
        }
    }
    true
}

fn same_reference(a: &Reference, b: &Reference) -> bool
    ensures { IsTrue result ↔ (a.now ≡ b.now) }
{
    if a.on_delete != b.on_delete || a.on_update != b.on_update {
        return false;
    }
    if a.is_deferred != b.is_deferred || !same_bytes(&a.parent, &b.parent) {
        return false;
    }
    if !same_places(&a.columns, &b.columns) {
        return false;
    }
    same_names(a.parent_columns.as_slice(), b.parent_columns.as_slice())
}

fn same_references(a: &[Reference], b: &[Reference]) -> bool
    ensures { IsTrue result ↔ (a.now ≡ b.now) }
{
    if a.len() != b.len() {
        return false;
    }
    for at in 0..a.len() {
        if !same_reference(&a[at], &b[at]) {
            return false;
        }
    }
    true
}

fn same_stamps(a: &Stamps, b: &Stamps) -> bool
    ensures { IsTrue result ↔ ((a.now ≡ b.now) × (b.now.terms ≡ [])) }
{
    if !has_no_terms(&a.terms) || !has_no_terms(&b.terms) {
        return false;
    }
    if !same_places(&a.places, &b.places) {
        return false;
    }
    same_names(a.formats.as_slice(), b.formats.as_slice())
}

fn same_rows(a: &Table, b: &Table) -> bool
    ensures { IsTrue result ↔ HasSameRows a.now b.now }
{
    if !same_bytes(&a.name, &b.name) || a.key != b.key || a.is_counted != b.is_counted {
        return false;
    }
    if !same_columns(a.columns.as_slice(), b.columns.as_slice()) {
        return false;
    }
    same_places(&a.computed, &b.computed) && same_stamps(&a.stamps, &b.stamps)
}

fn same_rules(a: &Table, b: &Table) -> bool
    ensures { IsTrue result ↔ HasSameRules a.now b.now }
{
    if !has_no_terms(&a.checks) || !has_no_terms(&b.checks) {
        return false;
    }
    if !same_places(&a.primary, &b.primary) {
        return false;
    }
    if !same_keys(a.uniques.as_slice(), b.uniques.as_slice()) {
        return false;
    }
    if !same_orders(a.orders.as_slice(), b.orders.as_slice()) {
        return false;
    }
    same_references(a.references.as_slice(), b.references.as_slice())
}

/// Whether the tables are equal in all but their trees: names, columns with their kinds and rules,
/// keys, UNIQUE and references.
///
/// A wanted table that has a default, a CHECK or a column that reads the time equals none.
pub fn is_table(found: &Table, wanted: &Table) -> bool
    ensures { IsTrue result ↔ (IsAlike found.now wanted.now × IsPlainTable wanted.now) }
{
    same_rows(found, wanted) && same_rules(found, wanted)
}

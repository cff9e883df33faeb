//! The places of rows under their keys.

ghost use Rattle.std.specs.Prelude.{◌≡◌, ℕ, IfErr, IfOk, IfSome, IsNone, OnOk, length};
ghost use Rattle.audit_lists.specs.Keys.{ArePlaces, HasKey, IsNew, owned_key, place_under};
ghost use Rattle.audit_lists.specs.Ties.{Each, IsFirst, IsFirstBut, Says, listed, names, once};

use crate::fault::{OfficeFault, found};
use crate::key::{KeyOf, LentKey};
use audit_rows::{Finding, Named, Rule};
use std::alloc::{AllocError, Global};
use std::collections::BTreeMap;

/// The places of some rows, from 0, under their keys.
pub(crate) type Places<'a> = BTreeMap<LentKey<'a>, usize>;

/// The place under a key.
pub(crate) fn place_of<'a>(places: &Places<'a>, key: LentKey<'a>) -> Option<usize>
    ensures { result ≡ place_under places.now (owned_key key.entry) }
{
    places.get(&key).copied()
}

/// The places of rows of which no two have one key; or the first that has the key of an earlier
/// one, as one that breaks this rule.
///
/// # Errors
/// `OfficeFault::Found` with the first that has an earlier one's key, `OfficeFault::Memory` if
/// there is no memory.
pub(crate) fn places_of<'a, T: Named, K: KeyOf<T>>(
    alloc: Global,
    rows: &'a [T],
    rule: Rule,
) -> Result<Places<'a>, OfficeFault>
    ensures apart { OnOk result (Each (IsNew K.key rows.now) rows.now) }
    ensures places { IfOk result (λ places. ArePlaces K.key places rows.now (length rows.now)) }
    ensures found { IfErr result
        (Says (IsFirst (once (listed T.name T.key rows.now) rule K.key))) }
{
    let mut places = BTreeMap::new(alloc);
    'rows: for at in 0..rows.len() {
        let row = &rows[at];
        match places.insert(K::of(row), at) {
            Ok(None) => {}
            Ok(Some(_earlier)) => return Err(OfficeFault::Found(found(row, rule))),
            Err(_) => return Err(OfficeFault::Memory),
        }
    }
    Ok(places)
}

/// The places of rows, of which some may have one key.
///
/// # Errors
/// `AllocError` if there is no memory.
pub(crate) fn all_places_of<'a, T, K: KeyOf<T>>(
    alloc: Global,
    rows: &'a [T],
) -> Result<Places<'a>, AllocError>
    ensures { IfOk result (λ places. ArePlaces K.key places rows.now (length rows.now)) }
{
    let mut places = BTreeMap::new(alloc);
    'rows: for at in 0..rows.len() {
        places.insert(K::of(&rows[at]), at)?;
    }
    Ok(places)
}

/// The first of the rows that names none of the others, whose places these are.
///
/// Only the contract reads the others.
pub(crate) fn first_astray<'a, T, K: KeyOf<T>, U, N: KeyOf<U>>(
    rows: &'a [T],
    others: &'a [U],
    places: &Places<'a>,
) -> Option<&'a T>
    requires { ArePlaces N.key places.now others.now (length others.now) }
    ensures none { IsNone result → Each (λ _ row. HasKey N.key others.now (K.key row)) rows.now }
    ensures some { IfSome result (λ row. (at : ℕ)
        × IsFirstBut (λ _ row. HasKey N.key others.now (K.key row)) rows.now at row.now) }
{
    'rows: for at in 0..rows.len() {
        let row = &rows[at];
        if place_of(places, K::of(row)).is_none() {
            return Some(row);
        }
    }
    None
}

/// Nothing where each of the rows names one of the others, whose places these are; or the first
/// that names none, as one that breaks this rule.
///
/// # Errors
/// The `Finding` of the first that names none.
pub(crate) fn test_names<'a, T: Named, K: KeyOf<T>, U, N: KeyOf<U>>(
    rows: &'a [T],
    others: &'a [U],
    places: &Places<'a>,
    rule: Rule,
) -> Result<(), Finding>
    requires { ArePlaces N.key places.now others.now (length others.now) }
    ensures passes { OnOk result (Each (λ _ row. HasKey N.key others.now (K.key row)) rows.now) }
    ensures found { IfErr result
        (IsFirst (names (listed T.name T.key rows.now) rule K.key N.key others.now)) }
{
    match first_astray::<T, K, U, N>(rows, others, places) {
        Some(row) => Err(found(row, rule)),
        None => Ok(()),
    }
}

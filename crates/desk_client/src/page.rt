//! Pages of lists, as replies tell them.

ghost use Rattle.std.specs.Prelude.{◌≡◌, ◌↔◌, IfOk, IsTrue};
ghost use Rattle.book_states.specs.declared.lookup.Found.{Found as WhatIsFound};
ghost use Rattle.desk_client.specs.Page.{AreAlike, HasTokens, HaveTokens, IsToldPage};
ghost use Rattle.desk_client.specs.Page.{page_as_read};
ghost use Rattle.records.specs.Front.{IsFound};
ghost use Rattle.desk_client.specs.declared.page.PageKind.TheVariants.{Meters, Sales, Shifts};
ghost use Rattle.desk_client.specs.declared.page.PageKind.TheVariants.{Tariffs};

use crate::answers::is_of_class_zero;
use crate::columns::{ListedMeterColumns, ListedShiftColumns, SaleColumns};
use crate::items::{Item, read_list};
use crate::tariff_items::tariff_law;
use book_states::{Found, ListedMeter, ListedShift, ListedTariff};
use office_rules::Sale;
use records::Columns;
use std::alloc::{AllocError, Global};

/// What a page lists.
#[derive(Clone, Copy, Debug, PartialEq, Eq)]
pub enum PageKind {
    Tariffs,
    Meters,
    Shifts,
    Sales,
}

/// The page that a body tells, where it is one of this kind: at most 100 members, each by its
/// rules. The reply does not tell the nibbles of the tokens of sales: here they are 0. An error is
/// want of memory.
pub fn page_in(alloc: Global, kind: PageKind, body: &[u8]) -> Result<Option<Found>, AllocError>
    ensures { IfOk result
        (IsFound (λ page. IsToldPage kind page × (body.now ≡ page_as_read page))) }
{
    match kind {
        PageKind::Tariffs => tariffs_in(alloc, body),
        PageKind::Meters => meters_in(alloc, body),
        PageKind::Shifts => shifts_in(alloc, body),
        PageKind::Sales => sales_in(alloc, body),
    }
}

// The same of a page of tariffs,
fn tariffs_in(alloc: Global, body: &[u8]) -> Result<Option<Found>, AllocError>
    ensures { IfOk result (IsFound (λ page. IsToldPage Tariffs page
        × (body.now ≡ page_as_read page))) }
{
    match read_list(alloc, "{\"tariffs\":[", body)? {
        Some(tariffs) => Ok(Some(Found::Tariffs(tariffs))),
        None => Ok(None),
    }
}

// of meters,
fn meters_in(alloc: Global, body: &[u8]) -> Result<Option<Found>, AllocError>
    ensures { IfOk result
        (IsFound (λ page. IsToldPage Meters page × (body.now ≡ page_as_read page))) }
{
    match read_list(alloc, "{\"meters\":[", body)? {
        Some(meters) => Ok(Some(Found::Meters(meters))),
        None => Ok(None),
    }
}

// of shifts,
fn shifts_in(alloc: Global, body: &[u8]) -> Result<Option<Found>, AllocError>
    ensures { IfOk result
        (IsFound (λ page. IsToldPage Shifts page × (body.now ≡ page_as_read page))) }
{
    match read_list(alloc, "{\"shifts\":[", body)? {
        Some(shifts) => Ok(Some(Found::Shifts(shifts))),
        None => Ok(None),
    }
}

// and of sales.
fn sales_in(alloc: Global, body: &[u8]) -> Result<Option<Found>, AllocError>
    ensures { IfOk result
        (IsFound (λ page. IsToldPage Sales page × (body.now ≡ page_as_read page))) }
{
    match read_list(alloc, "{\"sales\":[", body)? {
        Some(sales) => Ok(Some(Found::Sales(sales))),
        None => Ok(None),
    }
}

/// Whether the digits of each sale of a page can be those of a token. Other pages have no sales.
pub fn has_tokens(page: &Found) -> bool
    ensures { IsTrue result ↔ HasTokens page.now }
{
    match page {
        Found::Sales(sales) => have_tokens(sales),
        _ => true,
    }
}

// Whether the digits of each of these sales can be those of a token.
fn have_tokens(sales: &[Sale]) -> bool
    ensures { IsTrue result ↔ HaveTokens sales.now }
{
    match sales {
        [] => true,
        [sale, rest @ ..] => is_of_class_zero(&sale.digits) && have_tokens(rest),
    }
}

/// One body tells one page.
pub fn page_law()
    ensures one { (kind : PageKind) (page other : WhatIsFound) → IsToldPage kind page
        → IsToldPage kind other → page_as_read page ≡ page_as_read other → AreAlike page other }
{
    tariff_law();
    <ListedMeterColumns>::columns_law();
    <ListedShiftColumns>::columns_law();
    <SaleColumns>::columns_law();
    <ListedTariff as Item>::item_law();
    <ListedMeter as Item>::item_law();
    <ListedShift as Item>::item_law();
    <Sale as Item>::item_law();
}

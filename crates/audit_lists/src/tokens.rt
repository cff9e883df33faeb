//! The test whether one transform wrote the tokens of an office.

ghost use Rattle.std.specs.Prelude.{◌↔◌, All, IfErr, IfOk, IsTrue, List, OnOk, length};
ghost use Rattle.sts_token.specs.Fields.{AreFields};
ghost use Rattle.sts_token.specs.Token.{BlockFunction, IsToken};
ghost use Rattle.vend_core.specs.Law.Life.{AreLives, Life, SellsUnder};
ghost use Rattle.office_rules.specs.Law.NewSale.{fields_of};
ghost use Rattle.vend_core.specs.Law.Reached.{HasTokensOf, IsWrittenBy};
ghost use Rattle.office_rules.specs.Office.{IsSaleRow, Office};
ghost use Rattle.audit_rows.specs.declared.finding.Finding.{Finding as Findings};
ghost use Rattle.audit_lists.specs.Keys.{ArePlaces};
ghost use Rattle.audit_lists.specs.RowKeys.{meter_key};
ghost use Rattle.audit_lists.specs.Ties.{IsFirst};
ghost use Rattle.audit_lists.specs.Tokens.{TellsUnwritten, written_tie};
ghost use Rattle.audit_lists.specs.reached.Finds.{AreRowsOfOffice};

use crate::fault::found;
use crate::key::Number;
use crate::places::{Places, all_places_of, place_of};
use audit_rows::{Finding, MeterRow, OfficeRows, Rule};
use office_rules::Sale;
use std::alloc::{AllocError, Global};
use sts_token::{BlockTransform, read};
use vend_core::reached_law;

// Whether a sale's digits are the token of its fields under a key.
fn is_token_of<T: BlockTransform>(transform: &T, key: u64, sale: &Sale) -> bool
    ensures { AreFields (fields_of sale.now)
        → (IsTrue result
        ↔ IsToken (T.forwards transform.now) key (fields_of sale.now) sale.now.digits) }
{
    match read(transform, key, &sale.digits) {
        Ok(read) => {
            read.rnd == sale.rnd
                && read.tid == sale.tid
                && read.amount.tenths() == sale.tenths.tenths()
        }
        Err(_fault) => false,
    }
}

// Whether they are so under the key of its meter.
fn is_written<'a, T: BlockTransform>(
    transform: &T,
    rows: &'a OfficeRows,
    places: &Places<'a>,
    sale: &'a Sale,
) -> bool
    requires { ArePlaces meter_key places.now rows.now.meters.items
        (length rows.now.meters.items) }
    ensures { (o : Office) → AreRowsOfOffice rows.now o → IsSaleRow o sale.now
        → (IsTrue result ↔ IsWrittenBy (T.forwards transform.now) o sale.now) }
{
    let meters = rows.meters.as_slice();
    match place_of(places, (sale.meter.as_bytes(), b"", 0, 0)) {
        Some(place) => is_token_of(transform, meters[place].meter.key, sale),
        None => false,
    }
}

/// The places, from 0, of the meters of some rows, under their numbers.
#[derive(Drop)]
pub struct MeterPlaces<'a> {
    places: Places<'a>,
}

/// The places of the meters of these rows.
///
/// # Errors
/// `AllocError` if there is no memory.
pub fn meter_places<'a>(alloc: Global, rows: &'a OfficeRows) -> Result<MeterPlaces<'a>, AllocError>
    ensures { IfOk result (λ meters. ArePlaces meter_key meters.places rows.now.meters.items
        (length rows.now.meters.items)) }
{
    let places = all_places_of::<MeterRow, Number>(alloc, &rows.meters)?;
    Ok(MeterPlaces { places })
}

/// Nothing where this transform wrote all tokens of the office of these rows, whose meters have
/// these places.
///
/// # Errors
/// The `Finding` is of the first sale whose token the transform did not write.
pub fn test_tokens<'a, T: BlockTransform>(
    transform: &T,
    rows: &'a OfficeRows,
    meters: &MeterPlaces<'a>,
) -> Result<(), Finding>
    requires { ArePlaces meter_key meters.now.places rows.now.meters.items
        (length rows.now.meters.items) }
    ensures passes { OnOk result ((o : Office) → AreRowsOfOffice rows.now o
        → HasTokensOf (T.forwards transform.now) o) }
    ensures found { IfErr result (TellsUnwritten (T.forwards transform.now) rows.now) }
{
    let sales = rows.sales.as_slice();
    'sales: for at in 0..sales.len() {
        let sale = &sales[at];
        if !is_written(transform, rows, &meters.places, sale) {
            return Err(found(sale, Rule::Token));
        }
    }
    Ok(())
}

/// Of an office whose tokens one transform wrote no sale is ever found.
pub fn tokens_law()
    ensures none { (forward : BlockFunction) (o : Office) (f : Findings) → HasTokensOf forward o
        → IsFirst (written_tie forward o) f → ⊥ }
    ensures lives { (forward : BlockFunction) (lives : List Life) (o : Office) (f : Findings)
        → AreLives lives o → All (SellsUnder forward) lives
        → IsFirst (written_tie forward o) f → ⊥ }
{
    reached_law();
}

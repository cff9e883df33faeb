//! The bases that meters had, of which none is later than the present one.

ghost use Rattle.std.specs.Prelude.{◌≡◌, ◌↔◌, IfErr, IsTrue, OnOk, length};
ghost use Rattle.audit_rows.specs.declared.finding.Rule.TheVariants as rule;
ghost use Rattle.audit_lists.specs.Keys.{ArePlaces, IsNew};
ghost use Rattle.audit_lists.specs.RowKeys.{meter_key};
ghost use Rattle.audit_lists.specs.Rules.{IsOfMeter};
ghost use Rattle.audit_lists.specs.Tables.{listed_bases};
ghost use Rattle.audit_lists.specs.Ties.{Each, IsFirst, each};

use crate::fault::found;
use crate::places::{Places, place_of};
use audit_rows::{BaseRow, Finding, MeterRow, Rule};

// Whether the base is of one of the meters, whose present base is no earlier one.
fn is_of_meter<'a>(base: &'a BaseRow, meters: &'a [MeterRow], places: &Places<'a>) -> bool
    requires places { ArePlaces meter_key places.now meters.now (length meters.now) }
    requires apart { Each (IsNew meter_key meters.now) meters.now }
    ensures { IsTrue result ↔ IsOfMeter meters.now base.now }
{
    match place_of(places, (base.meter.as_bytes(), b"", 0, 0)) {
        Some(at) => base.base.year() <= meters[at].meter.base.year(),
        None => false,
    }
}

/// Nothing where each base is of a meter, and none is later than the present one.
///
/// # Errors
/// The `Finding` of the first that is not.
pub(crate) fn test_bases<'a>(
    bases: &'a [BaseRow],
    meters: &'a [MeterRow],
    places: &Places<'a>,
) -> Result<(), Finding>
    requires places { ArePlaces meter_key places.now meters.now (length meters.now) }
    requires apart { Each (IsNew meter_key meters.now) meters.now }
    ensures passes { OnOk result (Each (λ _ base. IsOfMeter meters.now base) bases.now) }
    ensures found { IfErr result
        (IsFirst (each (listed_bases bases.now) rule.Base (IsOfMeter meters.now))) }
{
    'bases: for at in 0..bases.len() {
        if !is_of_meter(&bases[at], meters, places) {
            return Err(found(&bases[at], Rule::Base));
        }
    }
    Ok(())
}

ghost use Rattle.std.specs.Prelude.{◌≡◌, ◌≢◌, ◌↔◌, ◌&&◌, ◌==◌, ◌+◌, ◌-◌, ◌^◌, ◌<◌, ◌≤◌, ℕ, List};
ghost use Rattle.std.specs.Prelude.{Option, Some, None, Ok, All, Contains, bytes_eq, drop, false};
ghost use Rattle.std.specs.Prelude.{max, slice_get, take, true, unwrap_or, if◌then◌else◌};
ghost use Rattle.sts_fields.specs.Calendar.{month_at};
ghost use Rattle.sts_fields.specs.Day.{day_at};
ghost use Rattle.sts_fields.specs.Tid.{IsLast, last_tid};
ghost use Rattle.sts_fields.specs.declared.base.Base.{Base};
ghost use Rattle.sts_token.specs.Token.{KeepsRange, BlockFunction};
ghost use Rattle.tariff.specs.declared.step.Step.{Step};
ghost use Rattle.office_rules.specs.Decision.{decision};
ghost use Rattle.office_rules.specs.Decision.Fold.{applied};
ghost use Rattle.sts_fields.specs.Base.{base_eq};
ghost use Rattle.office_rules.specs.Office.Lookup.{IsLatest, NoneBegun, WasSoldSince, WasSoldTo};
ghost use Rattle.office_rules.specs.Office.Lookup.{greatest_of, has_sales, latest, open_shift};
ghost use Rattle.office_rules.specs.Office.Lookup.{prior, sale_numbered, sale_of_ref};
ghost use Rattle.office_rules.specs.Office.Lookup.{sales_of_shift, shift_numbered, sold_since, used};
ghost use Rattle.office_rules.specs.Office.{IsOffice, Office};
ghost use Rattle.office_rules.specs.Decision.Requests.{IsStamped};
ghost use Rattle.office_rules.specs.Law.Store.{AreByNumber, HasOneSaleMore, IsLastSale};
ghost use Rattle.office_rules.specs.Law.Store.{IsOpenShift, IsUnderRef, Meets, TotalsGrow};
ghost use Rattle.office_rules.specs.Law.Store.{sales_above};
ghost use Rattle.office_rules.specs.declared.decision.change.Change.{Change};
ghost use Rattle.office_rules.specs.declared.decision.change.Edit.{Edit};
ghost use Rattle.office_rules.specs.declared.decision.request.Request.{Request};
ghost use Rattle.office_rules.specs.declared.decision.request.Stamped.{Stamped};
ghost use Rattle.office_rules.specs.declared.office.sale.Sale.{Sale};
ghost use Rattle.office_rules.specs.declared.office.shift.Shift.{Shift};

use sts_fields::{amount_law, fresh_law};
use sts_token::token_law;
use tariff::purchase_law;

/// What an office's rows tell a store that keeps them: what a look-up finds, how sums grow, and
/// what an edit meets.
pub fn store_law()
    // The last identifier is the greatest one sold, and there is none where nothing was sold.
    ensures greatest { (used : List ℕ) (last : Option ℕ)
        → (IsLast used last ↔ (last ≡ greatest_of used)) }
    ensures last_sale { (o : Office) (number : List ℕ) (base : Base) (s : Sale)
        → IsOffice o → IsLastSale o number base s → greatest_of (used o number base) ≡ Some s.tid }
    ensures of_last_sale { (o : Office) (number : List ℕ) (base : Base) (tid : ℕ)
        → IsOffice o → greatest_of (used o number base) ≡ Some tid
        → (s : Sale) × IsLastSale o number base s × (s.tid ≡ tid) }
    ensures no_last_sale { (o : Office) (number : List ℕ) (base : Base)
        → ((s : Sale) → Contains o.sales s → s.meter ≡ number → s.base ≢ base)
        → greatest_of (used o number base) ≡ None }

    // Of further steps by first day those that hold on a day are the ones with the greatest first
    // day that is not after it, and there are none where none begin until then.
    ensures latest_steps { (dated : ℕ → Option (List Step)) (day : ℕ) (steps : List Step)
        → ((latest dated day ≡ Some steps) ↔ IsLatest dated day steps) }
    ensures no_latest_steps { (dated : ℕ → Option (List Step)) (day : ℕ)
        → ((latest dated day ≡ None) ↔ NoneBegun dated day) }

    // Whether there is a sale to a meter, and whether one was made since a day.
    ensures has_sales { (o : Office) (number : List ℕ)
        → ((has_sales o number ≡ true) ↔ WasSoldTo o number) }
    ensures has_no_sales { (o : Office) (number : List ℕ)
        → ((has_sales o number ≡ false)
        ↔ ((s : Sale) → Contains o.sales s → s.meter ≢ number)) }
    ensures sold_since { (o : Office) (day : ℕ)
        → ((sold_since o day ≡ true) ↔ WasSoldSince o day) }
    ensures not_sold_since { (o : Office) (day : ℕ)
        → ((sold_since o day ≡ false)
        ↔ ((s : Sale) → Contains o.sales s → day_at s.moment < day)) }

    // A shift that stands, is the operator's and is open is the operator's open shift.
    ensures open_shift { (o : Office) (name : List ℕ) (s : Shift)
        → IsOffice o → ((open_shift o name ≡ Some s) ↔ IsOpenShift o name s) }
    ensures no_open_shift { (o : Office) (name : List ℕ)
        → ((open_shift o name ≡ None) ↔ ((s : Shift) → ¬ IsOpenShift o name s)) }

    // A row is found by its number, which is its place, and a sale by the operator's ref.
    ensures shift_numbered { (o : Office) (number : ℕ) (s : Shift)
        → IsOffice o
        → ((shift_numbered o number ≡ Some s) ↔ (Contains o.shifts s × (s.number ≡ number))) }
    ensures no_shift_numbered { (o : Office) (number : ℕ)
        → ((shift_numbered o number ≡ None)
        ↔ ((s : Shift) → Contains o.shifts s → s.number ≢ number)) }
    ensures shift_at { (o : Office) (number : ℕ)
        → IsOffice o → 1 ≤ number → shift_numbered o number ≡ slice_get o.shifts (number - 1) }
    ensures sale_numbered { (o : Office) (number : ℕ) (s : Sale)
        → IsOffice o
        → ((sale_numbered o number ≡ Some s) ↔ (Contains o.sales s × (s.number ≡ number))) }
    ensures no_sale_numbered { (o : Office) (number : ℕ)
        → ((sale_numbered o number ≡ None)
        ↔ ((s : Sale) → Contains o.sales s → s.number ≢ number)) }
    ensures sale_at { (o : Office) (number : ℕ)
        → IsOffice o → 1 ≤ number → sale_numbered o number ≡ slice_get o.sales (number - 1) }
    ensures sale_of_ref { (o : Office) (name order_ref : List ℕ) (s : Sale)
        → IsOffice o → ((sale_of_ref o name order_ref ≡ Some s) ↔ IsUnderRef o name order_ref s) }
    ensures no_sale_of_ref { (o : Office) (name order_ref : List ℕ)
        → ((sale_of_ref o name order_ref ≡ None) ↔ ((s : Sale) → ¬ IsUnderRef o name order_ref s)) }

    // The sales of a shift, and those above a number.
    ensures sales_of_shift { (o : Office) (number : ℕ) (sales : List Sale)
        → IsOffice o
        → (AreByNumber o (λ s. s.shift ≡ number) sales ↔ (sales ≡ sales_of_shift o number)) }
    ensures sales_above { (o : Office) (number limit : ℕ)
        → IsOffice o → sales_above o number limit ≡ take limit (drop number o.sales) }

    // One sale more: the last identifier, the month's tenths and the totals of a shift after it.
    // They are told by which sales there are, and not by their order.
    ensures totals_grow { (o p : Office) (s : Sale)
        → IsOffice o → IsOffice p → HasOneSaleMore o s p → TotalsGrow o s p }
    ensures totals_added { (o : Office) (s : Sale)
        → TotalsGrow o s (applied (Edit.AddSale s) o) }
    ensures last_grows { (o : Office) (s : Sale) (number : List ℕ) (base : Base)
        → greatest_of (used (applied (Edit.AddSale s) o) number base)
        ≡ (if bytes_eq s.meter number && base_eq s.base base
        then Some (max (unwrap_or (greatest_of (used o number base)) 0) s.tid)
        else greatest_of (used o number base)) }
    ensures last_rises { (o : Office) (s : Sale)
        → All (λ tid. tid < s.tid) (used o s.meter s.base)
        → greatest_of (used (applied (Edit.AddSale s) o) s.meter s.base) ≡ Some s.tid }
    ensures prior_grows { (o : Office) (s : Sale) (number : List ℕ) (month : ℕ)
        → prior (applied (Edit.AddSale s) o) number month
        ≡ prior o number month
        + (if bytes_eq s.meter number && (month_at s.moment == month) then s.tenths else 0) }
    ensures used_range { (o : Office) (number : List ℕ) (base : Base)
        → IsOffice o → All (λ tid. tid ≤ last_tid) (used o number base) }
    ensures prior_range { (o : Office) (number : List ℕ) (month : ℕ)
        → IsOffice o → prior o number month ≤ 10 ^ 17 }

    // What the office has where an edit that it decided is made.
    ensures meets { (forward : BlockFunction) (o : Office) (at : Stamped)
        (change : Change) (edit : Edit)
        → IsOffice o → IsStamped at → KeepsRange forward
        → decision forward o at ≡ Ok change → change.edit ≡ Some edit → Meets edit o }
    ensures closes { (forward : BlockFunction) (o : Office) (at : Stamped)
        (name : List ℕ) (change : Change)
        → at.request ≡ Request.CloseShift name → decision forward o at ≡ Ok change
        → (s : Shift) × (open_shift o name ≡ Some s)
        × (change.edit ≡ Some (Edit.CloseShift s.number at.moment)) }
{
    amount_law();
    fresh_law();
    purchase_law();
    token_law();
}

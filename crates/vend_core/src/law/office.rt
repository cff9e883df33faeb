ghost use Rattle.std.specs.Prelude.{◌≡◌, ◌≢◌, ◌<◌, ◌≤◌, ◌↔◌, ◌⊎◌, ◌++◌, ◌∷◌, [], ℕ, true, List};
ghost use Rattle.std.specs.Prelude.{None, Some, IsSome, Ok, Err, All, AllPairs, Contains};
ghost use Rattle.sts_fields.specs.Base.{base_date, year_of};
ghost use Rattle.sts_fields.specs.Day.{day_at};
ghost use Rattle.sts_fields.specs.Tid.{FreshOutcome, IsLast, fresh_after};
ghost use Rattle.sts_fields.specs.declared.base.Base.{Base};
ghost use Rattle.sts_token.specs.Token.{KeepsRange, BlockFunction};
ghost use Rattle.tariff.specs.declared.step.Step.{Step};
ghost use Rattle.office_rules.specs.Law.Cash.{AskForReports, cash_of, cash_of_reports};
ghost use Rattle.office_rules.specs.Decision.Fold.{after, reply, step, with_key};
ghost use Rattle.office_rules.specs.Law.Growth.{HasGrown};
ghost use Rattle.office_rules.specs.Law.Handed.{sales_of};
ghost use Rattle.vend_core.specs.Law.Imports.{HasRow, ImportsNothing, LeavesRow, LeavesRows};
ghost use Rattle.office_rules.specs.Office.Lookup.{WasSoldSince, WasSoldTo, greatest_of};
ghost use Rattle.office_rules.specs.Office.Lookup.{sale_of_ref, sales_of_shift, steps_on, used};
ghost use Rattle.office_rules.specs.Law.NewSale.{IsNewSale};
ghost use Rattle.office_rules.specs.Office.{IsOffice, Office, Rises, empty_office};
ghost use Rattle.vend_core.specs.Law.OfficeLaws.{AreStepsOn, IsGreatestBase, IsMoved, IsNotBefore};
ghost use Rattle.vend_core.specs.Law.OfficeLaws.{IsSameOrder, IsWithdrawn, KeepsPrice};
ghost use Rattle.vend_core.specs.Law.OfficeLaws.{SellsOne, WasSold};
ghost use Rattle.office_rules.specs.Decision.Requests.{IsStamped};
ghost use Rattle.office_rules.specs.declared.decision.answer.Answer.{Answer};
ghost use Rattle.office_rules.specs.declared.office.meter.Meter.{Meter};
ghost use Rattle.office_rules.specs.declared.decision.request.Order.{Order};
ghost use Rattle.office_rules.specs.declared.decision.refusal.Refusal.{Refusal};
ghost use Rattle.office_rules.specs.declared.decision.request.Request.{Request};
ghost use Rattle.office_rules.specs.declared.decision.request.Stamped.{Stamped};
ghost use Rattle.office_rules.specs.declared.office.row.Row.{Row};
ghost use Rattle.office_rules.specs.declared.office.sale.Sale.{Sale};
ghost use Rattle.office_rules.specs.declared.office.shift.Shift.{Shift};

use sts_fields::fresh_law;
use sts_token::token_law;
use tariff::purchase_law;

/// What holds of an office along its requests, whatever they are.
pub fn office_law()
    // The empty office is an office, and each request leads from an office to one.
    ensures empty { IsOffice empty_office }
    ensures keeps_office { (forward : BlockFunction) (o : Office) (at : Stamped)
        → IsOffice o → IsStamped at → KeepsRange forward → IsOffice (step forward o at) }
    ensures keeps_along { (forward : BlockFunction) (o : Office) (ats : List Stamped)
        → IsOffice o → All IsStamped ats → KeepsRange forward → IsOffice (after forward o ats) }

    // The identifier that a sale gets by the greatest one sold is the fresh one, or there is none.
    ensures last { (used : List ℕ) → IsLast used (greatest_of used) }
    ensures fresh { (o : Office) (meter : List ℕ) (base : Base) (now : ℕ)
        → FreshOutcome (used o meter base) now (fresh_after now (greatest_of (used o meter base))) }

    // A new sale is what the rules say, and stands at the end; nothing else adds a sale.
    ensures new_sale { (forward : BlockFunction) (o : Office) (at : Stamped) (order : Order)
        (s : Sale)
        → IsOffice o → KeepsRange forward → at.request ≡ Request.Sell order
        → sale_of_ref o order.operator order.order_ref ≡ None
        → reply forward o at ≡ Ok (Answer.Sold s)
        → IsNewSale forward o at order s × ((step forward o at).sales ≡ o.sales ++ s ∷ []) }
    ensures at_most_one { (forward : BlockFunction) (o : Office) (at : Stamped)
        → IsOffice o → KeepsRange forward → SellsOne forward o at }

    // A ref that comes again changes nothing: the same order gets its sale, another one is refused.
    ensures again { (forward : BlockFunction) (o : Office) (at : Stamped) (order : Order)
        (first : Sale)
        → IsOffice o → at.request ≡ Request.Sell order → WasSold o order first
        → (step forward o at ≡ o)
        × (IsSameOrder order first → reply forward o at ≡ Ok (Answer.Sold first))
        × (¬ IsSameOrder order first → reply forward o at ≡ Err Refusal.RefReused) }

    // The rules themselves never answer that memory or the store failed, or that the office
    // stopped.
    ensures rules_alone { (forward : BlockFunction) (o : Office) (at : Stamped)
        → (reply forward o at ≢ Err Refusal.Memory)
        × (reply forward o at ≢ Err Refusal.Store)
        × (reply forward o at ≢ Err Refusal.Stopped) }

    // A refusal leaves the office as it was, and so do a reprint and a report, which give what
    // stands.
    ensures refused { (forward : BlockFunction) (o : Office) (at : Stamped) (refusal : Refusal)
        → reply forward o at ≡ Err refusal → step forward o at ≡ o }
    ensures reprints { (forward : BlockFunction) (o : Office) (at : Stamped) (number : ℕ)
        → at.request ≡ Request.Reprint number → step forward o at ≡ o }
    ensures reprinted { (forward : BlockFunction) (o : Office) (at : Stamped) (s : Sale)
        → IsOffice o → Contains o.sales s → at.request ≡ Request.Reprint s.number
        → reply forward o at ≡ Ok (Answer.Reprinted s) }
    ensures reports { (forward : BlockFunction) (o : Office) (at : Stamped) (number : ℕ)
        → at.request ≡ Request.ShiftReport number → step forward o at ≡ o }
    ensures reported { (forward : BlockFunction) (o : Office) (at : Stamped) (shift : Shift)
        → IsOffice o → Contains o.shifts shift → at.request ≡ Request.ShiftReport shift.number
        → reply forward o at ≡ Ok (Answer.Report shift (sales_of_shift o shift.number)) }
    ensures answers_stand { (forward : BlockFunction) (o : Office) (at : Stamped)
        → All (Contains (step forward o at).sales) (sales_of (reply forward o at)) }

    // A tariff stands as it is, and so do further steps but for WithdrawSteps of them, and a meter
    // but for SetTariff, MoveBase and SetKey of it. So an import that was granted and comes again,
    // on whatever day and with none of these of its rows in between, changes nothing and has no new
    // row.
    ensures stays { (forward : BlockFunction) (o : Office) (at : Stamped) (row : Row)
        → LeavesRow at.request row → HasRow o row → HasRow (step forward o at) row }
    ensures imported_again { (forward : BlockFunction) (o : Office) (at again : Stamped)
        (between : List Stamped)
        (rows : List Row) (new : ℕ)
        → at.request ≡ Request.Import rows → again.request ≡ Request.Import rows
        → reply forward o at ≡ Ok (Answer.Imported new) → All (LeavesRows rows) between
        → ImportsNothing forward (after forward (step forward o at) between) again }

    // Rows only come at the end, and a sale stays as it was made. A tariff's first steps stay too,
    // and of its further ones those on whose day or later a sale was made, whatever the clock. A
    // meter's base never goes back, a base that it had it had for good, and from its first sale on
    // it keeps its key.
    ensures grows { (forward : BlockFunction) (o : Office) (ats : List Stamped)
        → IsOffice o → All IsStamped ats → KeepsRange forward → HasGrown o (after forward o ats) }

    // Along any requests the identifiers of a meter under a base rise and never come again.
    ensures rising { (forward : BlockFunction) (o : Office) (ats : List Stamped)
        → IsOffice o → All IsStamped ats → KeepsRange forward
        → AllPairs Rises o.sales → AllPairs Rises (after forward o ats).sales }
    ensures never_again { (o : Office) (a b : Sale)
        → IsOffice o → Contains o.sales a → Contains o.sales b
        → a.meter ≡ b.meter → a.base ≡ b.base → a.tid ≡ b.tid → a ≡ b }

    // The base of a sale is one that its meter had, and the present base of a meter is the greatest
    // of those.
    ensures own_base { (o : Office)
        → IsOffice o → All (λ s. o.bases s.meter s.base ≡ true) o.sales }
    ensures present_base { (o : Office) (number : List ℕ) (m : Meter)
        → IsOffice o → o.meters number ≡ Some m → IsGreatestBase o number m.base }

    // A meter is moved to a later base once its date has come: to the one that it has nothing
    // changes, and to an earlier one it is never moved.
    ensures moved { (forward : BlockFunction) (o : Office) (at : Stamped) (number : List ℕ)
        (base : Base) (m : Meter)
        → o.meters number ≡ Some m → at.request ≡ Request.MoveBase number base
        → year_of m.base < year_of base → base_date base ≤ at.moment
        → IsMoved forward o at number base m }
    ensures moved_once { (forward : BlockFunction) (o : Office) (at : Stamped) (number : List ℕ)
        (base : Base) (m : Meter)
        → o.meters number ≡ Some m → at.request ≡ Request.MoveBase number base → m.base ≡ base
        → (reply forward o at ≡ Ok Answer.Done) × (step forward o at ≡ o) }
    ensures not_moved_back { (forward : BlockFunction) (o : Office) (at : Stamped)
        (number : List ℕ) (base : Base) (m : Meter)
        → o.meters number ≡ Some m → at.request ≡ Request.MoveBase number base
        → year_of base < year_of m.base → reply forward o at ≡ Err Refusal.NotLater }
    ensures not_moved_yet { (forward : BlockFunction) (o : Office) (at : Stamped)
        (number : List ℕ) (base : Base) (m : Meter)
        → o.meters number ≡ Some m → at.request ≡ Request.MoveBase number base
        → year_of m.base < year_of base → at.moment < base_date base
        → reply forward o at ≡ Err Refusal.BeforeBase }

    // Steps are added to a tariff from a later day on. Those that are there already change nothing,
    // also for a day that has passed; else for such a day, and for the present one, none are added.
    ensures steps_added { (forward : BlockFunction) (o : Office) (at : Stamped) (name : List ℕ)
        (day : ℕ) (steps : List Step)
        → IsSome (o.tariffs name) → at.request ≡ Request.AddSteps name day steps
        → o.dated_steps name day ≡ None → day_at at.moment < day
        → (reply forward o at ≡ Ok Answer.Done)
        × ((step forward o at).dated_steps name day ≡ Some steps) }
    ensures steps_added_once { (forward : BlockFunction) (o : Office) (at : Stamped)
        (name : List ℕ) (day : ℕ) (steps : List Step)
        → IsSome (o.tariffs name) → at.request ≡ Request.AddSteps name day steps
        → o.dated_steps name day ≡ Some steps
        → (reply forward o at ≡ Ok Answer.Done) × (step forward o at ≡ o) }
    ensures day_past { (forward : BlockFunction) (o : Office) (at : Stamped) (name : List ℕ)
        (day : ℕ) (steps : List Step)
        → IsSome (o.tariffs name) → at.request ≡ Request.AddSteps name day steps
        → o.dated_steps name day ≡ None → day ≤ day_at at.moment
        → reply forward o at ≡ Err Refusal.DayPast }

    // Steps are withdrawn before their day, where no sale was made on it or later. Where there are
    // none, also for a day that has passed, nothing changes.
    ensures withdrawn { (forward : BlockFunction) (o : Office) (at : Stamped) (name : List ℕ)
        (day : ℕ) (steps : List Step)
        → IsSome (o.tariffs name) → at.request ≡ Request.WithdrawSteps name day
        → o.dated_steps name day ≡ Some steps → day_at at.moment < day → ¬ WasSoldSince o day
        → IsWithdrawn forward o at name day }
    ensures withdrawn_once { (forward : BlockFunction) (o : Office) (at : Stamped)
        (name : List ℕ) (day : ℕ)
        → IsSome (o.tariffs name) → at.request ≡ Request.WithdrawSteps name day
        → o.dated_steps name day ≡ None
        → (reply forward o at ≡ Ok (Answer.Withdrawn 0)) × (step forward o at ≡ o) }
    ensures not_withdrawn { (forward : BlockFunction) (o : Office) (at : Stamped)
        (name : List ℕ) (day : ℕ) (steps : List Step)
        → IsSome (o.tariffs name) → at.request ≡ Request.WithdrawSteps name day
        → o.dated_steps name day ≡ Some steps
        → (day ≤ day_at at.moment) ⊎ WasSoldSince o day
        → reply forward o at ≡ Err Refusal.DayPast }

    // So for a day that has begun no further steps come and none go.
    ensures begun_steps { (forward : BlockFunction) (o : Office) (ats : List Stamped)
        (name : List ℕ) (day : ℕ)
        → All (IsNotBefore day) ats
        → (after forward o ats).dated_steps name day ≡ o.dated_steps name day }

    // A meter that has no sale, under whatever base, is given another key. The key that it has
    // changes nothing.
    ensures key_set { (forward : BlockFunction) (o : Office) (at : Stamped) (number : List ℕ)
        (key : ℕ) (m : Meter)
        → o.meters number ≡ Some m → at.request ≡ Request.SetKey number key
        → m.key ≢ key → ¬ WasSoldTo o number
        → (reply forward o at ≡ Ok Answer.Done)
        × ((step forward o at).meters number ≡ Some (with_key key m)) }
    ensures key_set_once { (forward : BlockFunction) (o : Office) (at : Stamped)
        (number : List ℕ) (key : ℕ) (m : Meter)
        → o.meters number ≡ Some m → at.request ≡ Request.SetKey number key → m.key ≡ key
        → (reply forward o at ≡ Ok Answer.Done) × (step forward o at ≡ o) }
    ensures no_key_set { (forward : BlockFunction) (o : Office) (at : Stamped)
        (number : List ℕ) (key : ℕ) (m : Meter)
        → o.meters number ≡ Some m → at.request ≡ Request.SetKey number key
        → m.key ≢ key → WasSoldTo o number → reply forward o at ≡ Err Refusal.HasSales }

    // A tariff has on each day exactly one list of steps, the latest that have begun or else the
    // first, and requests of the day and of later ones leave it.
    ensures steps_of_day { (o : Office) (name : List ℕ) (day : ℕ) (steps : List Step)
        → IsSome (o.tariffs name)
        → (AreStepsOn o name day steps ↔ (steps ≡ steps_on o name day)) }
    ensures passed_steps { (forward : BlockFunction) (o : Office) (ats : List Stamped)
        (name : List ℕ) (day : ℕ)
        → IsOffice o → All IsStamped ats → KeepsRange forward
        → IsSome (o.tariffs name) → All (IsNotBefore day) ats
        → steps_on (after forward o ats) name day ≡ steps_on o name day }

    // So a sale keeps its price whatever steps come: it stands as it was, and costs what the steps
    // of its own day ask, in each office that requests of that day and of later ones lead to.
    // (Where a clock is set back, steps may come from a day on that had passed, but none go that a
    // sale may be priced by; and of the sales of such a day `grows` says still that they stand as
    // they were, with their prices.)
    ensures keeps_price { (forward : BlockFunction) (o : Office) (at : Stamped) (order : Order)
        (s : Sale) (later : List Stamped)
        → IsOffice o → KeepsRange forward → IsStamped at → All IsStamped later
        → at.request ≡ Request.Sell order
        → sale_of_ref o order.operator order.order_ref ≡ None
        → reply forward o at ≡ Ok (Answer.Sold s)
        → All (IsNotBefore (day_at at.moment)) later
        → KeepsPrice o (after forward (step forward o at) later) s }

    // A sale that a request makes has a tenth at least. (Of rows alone an office does not ask it.)
    ensures some_tenths { (forward : BlockFunction) (o : Office) (ats : List Stamped)
        → IsOffice o → All IsStamped ats → KeepsRange forward
        → All (λ s. 1 ≤ s.tenths) o.sales → All (λ s. 1 ≤ s.tenths) (after forward o ats).sales }

    // A sale costs at most its tender, and the reports of all shifts hold the money of all sales.
    ensures within_tender { (o : Office) → IsOffice o → All (λ s. s.price ≤ s.tender) o.sales }
    ensures cash { (forward : BlockFunction) (o : Office) (ats : ℕ → Stamped)
        → IsOffice o → AskForReports ats → cash_of_reports forward o ats ≡ cash_of o.sales }
{
    fresh_law();
    purchase_law();
    token_law();
}

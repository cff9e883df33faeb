ghost use Rattle.std.specs.Prelude.{◌≡◌, ◌-◌, ◌<◌, ◌≤◌, ◌^◌, ◌↔◌, ◌++◌, ◌∷◌, [], ℕ, List, Ok};
ghost use Rattle.std.specs.Prelude.{All, Contains, map, sum_by};
ghost use Rattle.sts_fields.specs.Tid.{IsReserved};
ghost use Rattle.sts_token.specs.Meter.{Accepts, WasAccepted, credit_of};
ghost use Rattle.sts_token.specs.Token.{BlockFunction};
ghost use Rattle.office_rules.specs.Law.Cash.{AskForReports, cash_of, cash_of_reports};
ghost use Rattle.office_rules.specs.Law.Growth.{HasGrown};
ghost use Rattle.vend_core.specs.Law.Imports.{AsksNoChange, ImportsNothing};
ghost use Rattle.vend_core.specs.Law.Life.{Answered, Exchange, IsHanded, IsLife, LeadTo, Life};
ghost use Rattle.vend_core.specs.Law.Life.{MayLeave, WasMadeSince};
ghost use Rattle.office_rules.specs.Law.NewSale.{fields_of};
ghost use Rattle.office_rules.specs.Office.{IsOffice, Office, Rises};
ghost use Rattle.vend_core.specs.Law.SoldTokens.{AreSalesTo, SimMeter, WasWritten, accepted_of};
ghost use Rattle.vend_core.specs.Law.SoldTokens.{digits_of, later_sales_come, reads_by, tokens_of};
ghost use Rattle.office_rules.specs.declared.decision.answer.Answer.{Answer};
ghost use Rattle.office_rules.specs.declared.decision.request.Request.{Request};
ghost use Rattle.office_rules.specs.declared.decision.request.Stamped.{Stamped};
ghost use Rattle.office_rules.specs.declared.office.row.Row.{Row};
ghost use Rattle.office_rules.specs.declared.office.sale.Sale.{Sale};

use sts_fields::fresh_law;
use sts_token::{meter_law, token_law};
use tariff::purchase_law;

/// What holds over lives that begin with any office: a copy that was restored, a file of an older
/// format, or the empty one (`history_law`).
///
/// Of a sale that the first of them found it says what the office keeps; of one that they made
/// (`WasMadeSince`) all that `history_law` says.
pub fn lives_law()
    ensures offices { (start : Office) (lives : List Life) (o : Office)
        → IsOffice start → LeadTo start lives o → IsOffice o }
    ensures grows { (start : Office) (lives : List Life) (o : Office)
        → IsOffice start → LeadTo start lives o → HasGrown start o }

    // Lives go on by any life that opens an office which they may leave, and so by any lives.
    ensures goes_on { (start : Office) (lives : List Life) (life : Life) (o p : Office)
        → LeadTo start lives o → IsLife life → life.opening ≡ o → MayLeave life p
        → LeadTo start (lives ++ life ∷ []) p }
    ensures joins { (start : Office) (earlier later : List Life) (middle o : Office)
        → LeadTo start earlier middle → LeadTo middle later o
        → LeadTo start (earlier ++ later) o }

    // A sale that was handed out stands, unchanged, in every office that the last life may leave.
    ensures stands { (start : Office) (lives : List Life) (o : Office) (s : Sale)
        → IsOffice start → LeadTo start lives o → IsHanded lives s → Contains o.sales s }

    // One identifier of a meter under a base is of one sale; so is a number, and an operator's ref.
    ensures one_identifier { (start : Office) (lives : List Life) (o : Office) (a b : Sale)
        → IsOffice start → LeadTo start lives o → IsHanded lives a → IsHanded lives b
        → a.meter ≡ b.meter → a.base ≡ b.base → a.tid ≡ b.tid → a ≡ b }
    ensures one_number { (start : Office) (lives : List Life) (o : Office) (a b : Sale)
        → IsOffice start → LeadTo start lives o → IsHanded lives a → IsHanded lives b
        → a.number ≡ b.number → a ≡ b }
    ensures one_ref { (start : Office) (lives : List Life) (o : Office) (a b : Sale)
        → IsOffice start → LeadTo start lives o → IsHanded lives a → IsHanded lives b
        → a.operator ≡ b.operator → a.order_ref ≡ b.order_ref → a ≡ b }

    // A reprint is the first token, whatever transforms the lives have.
    ensures reprint { (start : Office) (lives : List Life) (o : Office) (first again : Sale)
        → IsOffice start → LeadTo start lives o
        → Answered lives (Answer.Sold first) → Answered lives (Answer.Reprinted again)
        → again.number ≡ first.number → again.digits ≡ first.digits }

    // The identifier of a sale that they made is above those of all sales before it to the meter
    // under the base, at least 2 and not reserved. It has a tenth at least, and its token was
    // written in one of them.
    ensures rising { (start : Office) (lives : List Life) (o : Office) (a b : Sale)
        → IsOffice start → LeadTo start lives o
        → Contains o.sales a → WasMadeSince start o b → a.number < b.number → Rises a b }
    ensures identifiers { (start : Office) (lives : List Life) (o : Office) (s : Sale)
        → IsOffice start → LeadTo start lives o → WasMadeSince start o s
        → (2 ≤ s.tid) × ¬ IsReserved s.tid }
    ensures some_tenths { (start : Office) (lives : List Life) (o : Office) (s : Sale)
        → IsOffice start → LeadTo start lives o → WasMadeSince start o s → 1 ≤ s.tenths }
    ensures written { (start : Office) (lives : List Life) (o : Office) (s : Sale)
        → IsOffice start → LeadTo start lives o → WasMadeSince start o s → WasWritten lives s }

    // An import that a life granted and that comes again, later in it or in a later one, changes
    // nothing and has no new row, whatever transform is there then, if there was in between no
    // SetTariff, MoveBase or SetKey of one of its meters and no WithdrawSteps of its steps.
    ensures imported_again { (start : Office) (earlier later : List Life) (life : Life) (o : Office)
        (before between : List Exchange) (e : Exchange) (rows : List Row) (new : ℕ)
        (forward : BlockFunction) (again : Stamped)
        → LeadTo start (earlier ++ life ∷ later) o → life.exchanges ≡ before ++ e ∷ between
        → e.request.request ≡ Request.Import rows → e.reply ≡ Ok (Answer.Imported new)
        → All (AsksNoChange rows) between → All (λ l. All (AsksNoChange rows) l.exchanges) later
        → again.request ≡ Request.Import rows → ImportsNothing forward o again }

    // The tokens of sales that they made to one meter under one base come to a new meter in any
    // order, with repeats. One that had not come yet is accepted exactly if those of fewer than
    // fifty later sales came before it; so in order of sale all are.
    ensures first_entry { (start : Office) (lives : List Life) (o : Office) (m : SimMeter)
        (sales came : List Sale) (s : Sale)
        → IsOffice start → LeadTo start lives o
        → AreSalesTo lives m sales → All (WasMadeSince start o) sales
        → All (Contains sales) came → Contains sales s → ¬ Contains came s
        → (Accepts (reads_by m) (tokens_of came) s.digits (fields_of s)
        ↔ (later_sales_come sales came s < 50)) }
    ensures in_order { (start : Office) (lives : List Life) (o : Office) (m : SimMeter)
        (earlier later : List Sale) (s : Sale)
        → IsOffice start → LeadTo start lives o
        → AreSalesTo lives m (earlier ++ s ∷ later)
        → All (WasMadeSince start o) (earlier ++ s ∷ later)
        → Accepts (reads_by m) (tokens_of earlier) s.digits (fields_of s) }

    // The credit is then the sum of the sales accepted, each once: at most what was sold, which is
    // below the greatest credit that a meter holds.
    ensures credit { (start : Office) (lives : List Life) (o : Office) (m : SimMeter)
        (sales came : List Sale)
        → IsOffice start → LeadTo start lives o
        → AreSalesTo lives m sales → All (WasMadeSince start o) sales → All (Contains sales) came
        → credit_of (reads_by m) (tokens_of came)
        ≡ sum_by (λ s. s.tenths) (accepted_of (reads_by m) (tokens_of came) sales) }
    ensures accepted { (start : Office) (lives : List Life) (o : Office) (m : SimMeter)
        (sales came : List Sale) (s : Sale)
        → IsOffice start → LeadTo start lives o
        → AreSalesTo lives m sales → All (WasMadeSince start o) sales → All (Contains sales) came
        → (Contains (accepted_of (reads_by m) (tokens_of came) sales) s
        ↔ (Contains sales s × WasAccepted (reads_by m) (map digits_of came) s.tid)) }
    ensures at_most_sold { (start : Office) (lives : List Life) (o : Office) (m : SimMeter)
        (sales came : List Sale)
        → IsOffice start → LeadTo start lives o
        → AreSalesTo lives m sales → All (WasMadeSince start o) sales → All (Contains sales) came
        → credit_of (reads_by m) (tokens_of came) ≤ sum_by (λ s. s.tenths) sales }
    ensures below_bound { (start : Office) (lives : List Life) (o : Office) (m : SimMeter)
        (sales : List Sale)
        → IsOffice start → LeadTo start lives o
        → AreSalesTo lives m sales → All (WasMadeSince start o) sales
        → sum_by (λ s. s.tenths) sales < 2 ^ 64 - 1 }

    // The reports of all shifts hold the money of all sales.
    ensures cash { (start : Office) (lives : List Life) (forward : BlockFunction) (o : Office)
        (ats : ℕ → Stamped)
        → IsOffice start → LeadTo start lives o → AskForReports ats
        → cash_of_reports forward o ats ≡ cash_of o.sales }
{
    fresh_law();
    purchase_law();
    token_law();
    meter_law();
}

ghost use Rattle.std.specs.Prelude.{◌≡◌, ◌+◌, ◌-◌, ◌<◌, ◌≤◌, ◌^◌, ◌↔◌, ◌++◌, ◌∷◌, [], ℕ, List, Ok};
ghost use Rattle.std.specs.Prelude.{All, AllPairs, Contains, map, min, sum_by};
ghost use Rattle.sts_fields.specs.Tid.{IsReserved};
ghost use Rattle.sts_fields.specs.Text.{Text};
ghost use Rattle.sts_token.specs.Fields.{TokenFields};
ghost use Rattle.sts_token.specs.Meter.{Accepts, Entry, WasAccepted, cleared, credit_of};
ghost use Rattle.sts_token.specs.Token.{BlockFunction};
ghost use Rattle.office_rules.specs.Law.Cash.{AskForReports, cash_of, cash_of_reports};
ghost use Rattle.vend_core.specs.Law.Imports.{AsksNoChange, ImportsNothing};
ghost use Rattle.vend_core.specs.Law.Life.{Answered, AreLives, Exchange, IsHanded, IsLife, Life};
ghost use Rattle.vend_core.specs.Law.Life.{MayLeave};
ghost use Rattle.office_rules.specs.Law.NewSale.{fields_of};
ghost use Rattle.office_rules.specs.Office.{IsOffice, Office, Rises};
ghost use Rattle.vend_core.specs.Law.SoldTokens.{AreSalesTo, SimMeter, WasWritten, accepted_of};
ghost use Rattle.vend_core.specs.Law.SoldTokens.{digits_of, later_sales_come, reads_by, tokens_of};
ghost use Rattle.office_rules.specs.declared.decision.answer.Answer.{Answer};
ghost use Rattle.office_rules.specs.declared.decision.request.Request.{Request};
ghost use Rattle.office_rules.specs.declared.decision.request.Stamped.{Stamped};
ghost use Rattle.office_rules.specs.declared.office.row.Row.{Row};
ghost use Rattle.office_rules.specs.declared.office.sale.Sale.{Sale};

use crate::law::lives_law;

/// What holds over all lives of an office, whatever was asked and wherever each life stopped.
///
/// A life ends when its program does; the next one opens an office that the one before may leave.
/// The first opens the empty one (`lives_law`: any).
pub fn history_law()
    ensures offices { (lives : List Life) (o : Office) → AreLives lives o → IsOffice o }

    // Lives go on by any life that opens an office which they may leave. (`life_law` says what is
    // a life.)
    ensures goes_on { (lives : List Life) (life : Life) (o p : Office)
        → AreLives lives o → IsLife life → life.opening ≡ o → MayLeave life p
        → AreLives (lives ++ life ∷ []) p }

    // A sale that was handed out stands, unchanged, in every office that the last life may leave.
    ensures stands { (lives : List Life) (o : Office) (s : Sale)
        → AreLives lives o → IsHanded lives s → Contains o.sales s }

    // One identifier of a meter under a base is of one sale; so is a number, and an operator's ref.
    ensures one_identifier { (lives : List Life) (o : Office) (a b : Sale)
        → AreLives lives o → IsHanded lives a → IsHanded lives b
        → a.meter ≡ b.meter → a.base ≡ b.base → a.tid ≡ b.tid → a ≡ b }
    ensures one_number { (lives : List Life) (o : Office) (a b : Sale)
        → AreLives lives o → IsHanded lives a → IsHanded lives b → a.number ≡ b.number → a ≡ b }
    ensures one_ref { (lives : List Life) (o : Office) (a b : Sale)
        → AreLives lives o → IsHanded lives a → IsHanded lives b
        → a.operator ≡ b.operator → a.order_ref ≡ b.order_ref → a ≡ b }

    // The identifiers of a meter under a base rise.
    ensures rising { (lives : List Life) (o : Office) → AreLives lives o → AllPairs Rises o.sales }

    // Each sale has a tenth at least.
    ensures some_tenths { (lives : List Life) (o : Office)
        → AreLives lives o → All (λ s. 1 ≤ s.tenths) o.sales }

    // An import that a life granted and that comes again, later in it or in a later one, changes
    // nothing and has no new row, whatever transform is there then, if there was in between no
    // SetTariff, MoveBase or SetKey of one of its meters and no WithdrawSteps of its steps.
    ensures imported_again { (earlier later : List Life) (life : Life) (o : Office)
        (before between : List Exchange) (e : Exchange) (rows : List Row) (new : ℕ)
        (forward : BlockFunction) (again : Stamped)
        → AreLives (earlier ++ life ∷ later) o → life.exchanges ≡ before ++ e ∷ between
        → e.request.request ≡ Request.Import rows → e.reply ≡ Ok (Answer.Imported new)
        → All (AsksNoChange rows) between → All (λ l. All (AsksNoChange rows) l.exchanges) later
        → again.request ≡ Request.Import rows → ImportsNothing forward o again }

    // A reprint is the first token, whatever transforms the lives have.
    ensures reprint { (lives : List Life) (o : Office) (first again : Sale)
        → AreLives lives o → Answered lives (Answer.Sold first)
        → Answered lives (Answer.Reprinted again)
        → again.number ≡ first.number → again.digits ≡ first.digits }

    // An identifier is at least 2 and not reserved, and a token was written in one of the lives.
    ensures identifiers { (lives : List Life) (o : Office) (s : Sale)
        → AreLives lives o → IsHanded lives s → (2 ≤ s.tid) × ¬ IsReserved s.tid }
    ensures written { (lives : List Life) (o : Office) (s : Sale)
        → AreLives lives o → IsHanded lives s → WasWritten lives s }

    // The tokens of one meter's sales under one base come to a new meter in any order, with
    // repeats.
    // One that had not come yet is accepted exactly if those of fewer than fifty later sales came
    // before it; so in order of sale all are.
    ensures first_entry { (lives : List Life) (o : Office) (m : SimMeter) (sales came : List Sale)
        (s : Sale)
        → AreLives lives o → AreSalesTo lives m sales
        → All (Contains sales) came → Contains sales s → ¬ Contains came s
        → (Accepts (reads_by m) (tokens_of came) s.digits (fields_of s)
        ↔ (later_sales_come sales came s < 50)) }
    ensures in_order { (lives : List Life) (o : Office) (m : SimMeter) (earlier later : List Sale)
        (s : Sale)
        → AreLives lives o → AreSalesTo lives m (earlier ++ s ∷ later)
        → Accepts (reads_by m) (tokens_of earlier) s.digits (fields_of s) }

    // The credit is then the sum of the sales accepted, each once: at most what was sold, which is
    // below the greatest credit that a meter holds.
    ensures credit { (lives : List Life) (o : Office) (m : SimMeter) (sales came : List Sale)
        → AreLives lives o → AreSalesTo lives m sales → All (Contains sales) came
        → credit_of (reads_by m) (tokens_of came)
        ≡ sum_by (λ s. s.tenths) (accepted_of (reads_by m) (tokens_of came) sales) }
    ensures accepted { (lives : List Life) (o : Office) (m : SimMeter) (sales came : List Sale)
        (s : Sale)
        → AreLives lives o → AreSalesTo lives m sales → All (Contains sales) came
        → (Contains (accepted_of (reads_by m) (tokens_of came) sales) s
        ↔ (Contains sales s × WasAccepted (reads_by m) (map digits_of came) s.tid)) }
    ensures at_most_sold { (lives : List Life) (o : Office) (m : SimMeter) (sales came : List Sale)
        → AreLives lives o → AreSalesTo lives m sales → All (Contains sales) came
        → credit_of (reads_by m) (tokens_of came) ≤ sum_by (λ s. s.tenths) sales }
    ensures below_bound { (lives : List Life) (o : Office) (m : SimMeter) (sales : List Sale)
        → AreLives lives o → AreSalesTo lives m sales
        → sum_by (λ s. s.tenths) sales < 2 ^ 64 - 1 }

    // A meter that is moved to a later base is cleared then: whatever came before, it accepts from
    // there on what a new one accepts, and its credit goes on. So what is said of a new meter holds
    // of it under each of its bases, between two clearings.
    ensures cleared { (m : SimMeter) (before history : List Entry) (text : Text)
        (fields : TokenFields)
        → (Accepts (reads_by m) (before ++ cleared ∷ history) text fields
        ↔ Accepts (reads_by m) history text fields) }
    ensures credit_goes_on { (m : SimMeter) (before history : List Entry)
        → credit_of (reads_by m) (before ++ cleared ∷ history)
        ≡ min (2 ^ 64 - 1) (credit_of (reads_by m) before + credit_of (reads_by m) history) }

    // The reports of all shifts hold the money of all sales.
    ensures cash { (lives : List Life) (forward : BlockFunction) (o : Office) (ats : ℕ → Stamped)
        → AreLives lives o → AskForReports ats → cash_of_reports forward o ats ≡ cash_of o.sales }
{
    lives_law();
}

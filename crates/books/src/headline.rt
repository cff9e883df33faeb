ghost use Rattle.std.specs.Prelude.{◌≡◌, ◌-◌, ◌<◌, ◌≤◌, ◌^◌, ◌↔◌, ◌++◌, ◌∷◌, ℕ, List, Ok, All};
ghost use Rattle.std.specs.Prelude.{Contains, map, sum_by};
ghost use Rattle.sqlite.specs.Held.{Held, state};
ghost use Rattle.sqlite.specs.State.{IsLive, Opens};
ghost use Rattle.sqlite_trees.specs.Tree.{Trees};
ghost use Rattle.sts_fields.specs.Text.{Text};
ghost use Rattle.sts_token.specs.Fields.{TokenFields};
ghost use Rattle.sts_token.specs.Meter.{Accepts, Entry, credit_of, entered};
ghost use Rattle.office_rules.specs.Law.Cash.{AskForReports, cash_of, cash_of_reports};
ghost use Rattle.vend_core.specs.Law.Imports.{AsksNoChange, ImportsNothing};
ghost use Rattle.vend_core.specs.Law.Life.{Answered, AreLives, Exchange, IsHanded, Life};
ghost use Rattle.office_rules.specs.Law.NewSale.{fields_of};
ghost use Rattle.office_rules.specs.Office.{Office};
ghost use Rattle.vend_core.specs.Law.SoldTokens.{AreSalesTo, SimMeter, accepted_of};
ghost use Rattle.vend_core.specs.Law.SoldTokens.{later_sales_come, reads_by, tokens_of};
ghost use Rattle.office_rules.specs.declared.decision.answer.Answer.{Answer};
ghost use Rattle.office_rules.specs.declared.decision.request.Request.{Request};
ghost use Rattle.office_rules.specs.declared.decision.request.Stamped.{Stamped};
ghost use Rattle.office_rules.specs.declared.office.row.Row.{Row};
ghost use Rattle.office_rules.specs.declared.office.sale.Sale.{Sale};
ghost use Rattle.books.specs.Headline.{OverLives};
ghost use Rattle.book_states.specs.Stores.{RecoversTo, StoreStandsFor};

use crate::reopening::opening_law;
use sqlite::Alter;
use sts_token::{BlockTransform, meter_law};
use vend_core::{history_law, life_law};

/// What holds of an office in a file over all its lives, wherever each of them stopped.
///
/// While nobody else writes the file and the disk returns what was written (`HasCleanDisk`), what a
/// stop between two calls or within one leaves is the office of a beginning of the requests, which
/// holds every acknowledged sale. No two sales to a meter under one base date share an identifier,
/// a reprint is the first token, and the simulated meter credits each token at most once. Each of
/// these is a clause.
///
/// `Books::open_from` begins a life for the office that the file stands for, `Books::serve` adds to
/// it, and each keeps the relation `Represents` that is the premise here (`OverLives`).
///
/// What the file held is part of the type of a store that was opened on it. So the books are over
/// `S`, and the connection that opens again, as the next run does, is over any other store `R`.
pub fn headline_law<S: Alter, R: Alter, T: BlockTransform>()
    // The lives of which books keep the last one are lives of one office.
    ensures lives { OverLives S.Store T.BlockTransform (λ lives office _. AreLives lives office) }

    // All that a stop may leave stands for an office that these lives may leave: it is that of the
    // acknowledged requests, or of these and the one in doubt.
    ensures left { OverLives S.Store T.BlockTransform (λ lives _ books. (trees : Trees)
        → books.state.may_leave trees → (o : Office) × RecoversTo trees o × AreLives lives o) }

    // A connection that is opened on it stands for that office, which is the one that the next life
    // begins with; and what is left stands for no other.
    ensures opens_again { OverLives S.Store T.BlockTransform (λ lives _ books. (again : Held R)
        → books.state.may_leave (state R.Store again).committed.trees
        → Opens (state R.Store again) → IsLive (state R.Store again)
        → (o : Office) × StoreStandsFor (state R.Store again) o × AreLives lives o) }
    ensures one_office { (trees : Trees) (o p : Office)
        → RecoversTo trees o → RecoversTo trees p → o ≡ p }

    // Each sale that was handed out in any of the lives stands there, unchanged.
    ensures stands { OverLives S.Store T.BlockTransform (λ lives _ books. (trees : Trees) (s : Sale)
        → books.state.may_leave trees → IsHanded lives s
        → (o : Office) × RecoversTo trees o × Contains o.sales s) }

    // No two of them share an identifier of a meter under a base, a number, or an operator's ref.
    ensures one_identifier { OverLives S.Store T.BlockTransform (λ lives _ _. (a b : Sale)
        → IsHanded lives a → IsHanded lives b
        → a.meter ≡ b.meter → a.base ≡ b.base → a.tid ≡ b.tid → a ≡ b) }
    ensures one_number { OverLives S.Store T.BlockTransform (λ lives _ _. (a b : Sale)
        → IsHanded lives a → IsHanded lives b → a.number ≡ b.number → a ≡ b) }
    ensures one_ref { OverLives S.Store T.BlockTransform (λ lives _ _. (a b : Sale)
        → IsHanded lives a → IsHanded lives b
        → a.operator ≡ b.operator → a.order_ref ≡ b.order_ref → a ≡ b) }

    // A reprint is the first token, whatever transforms the lives have.
    ensures reprint { OverLives S.Store T.BlockTransform (λ lives _ _. (first again : Sale)
        → Answered lives (Answer.Sold first) → Answered lives (Answer.Reprinted again)
        → again.number ≡ first.number → again.digits ≡ first.digits) }

    // Until it is cleared, the simulated meter credits each token at most once, whatever came
    // before it and whatever texts are entered between.
    ensures token_once { (m : SimMeter) (before : List Entry) (between : List Text) (text : Text)
        (first again : TokenFields)
        → Accepts (reads_by m) before text first
        → ¬ Accepts (reads_by m) (before ++ entered text ∷ map entered between) text again }

    // The tokens of one meter's sales under one base, entered into a new meter in any order and
    // with repeats: each is accepted at its first entry exactly if those of fewer than fifty later
    // sales came before it, so in the order of sale all are. The credit is the sum of the distinct
    // ones accepted, at most what was sold, and that is below the greatest credit of a meter.
    ensures first_entry { OverLives S.Store T.BlockTransform (λ lives _ _. (m : SimMeter)
        (sales came : List Sale) (s : Sale) → AreSalesTo lives m sales
        → All (Contains sales) came → Contains sales s → ¬ Contains came s
        → (Accepts (reads_by m) (tokens_of came) s.digits (fields_of s)
        ↔ (later_sales_come sales came s < 50))) }
    ensures in_order { OverLives S.Store T.BlockTransform (λ lives _ _. (m : SimMeter)
        (earlier later : List Sale) (s : Sale) → AreSalesTo lives m (earlier ++ s ∷ later)
        → Accepts (reads_by m) (tokens_of earlier) s.digits (fields_of s)) }
    ensures credit { OverLives S.Store T.BlockTransform (λ lives _ _. (m : SimMeter)
        (sales came : List Sale) → AreSalesTo lives m sales → All (Contains sales) came
        → credit_of (reads_by m) (tokens_of came)
        ≡ sum_by (λ s. s.tenths) (accepted_of (reads_by m) (tokens_of came) sales)) }
    ensures at_most_sold { OverLives S.Store T.BlockTransform (λ lives _ _. (m : SimMeter)
        (sales came : List Sale) → AreSalesTo lives m sales → All (Contains sales) came
        → credit_of (reads_by m) (tokens_of came) ≤ sum_by (λ s. s.tenths) sales) }
    ensures below_bound { OverLives S.Store T.BlockTransform (λ lives _ _. (m : SimMeter)
        (sales : List Sale) → AreSalesTo lives m sales
        → sum_by (λ s. s.tenths) sales < 2 ^ 64 - 1) }

    // The reports of all shifts hold the money of all sales.
    ensures cash { OverLives S.Store T.BlockTransform (λ _ office books. (ats : ℕ → Stamped)
        → AskForReports ats → cash_of_reports books.forward office ats ≡ cash_of office.sales) }

    // An import that was granted in one of the lives and comes again changes nothing, if there was
    // in between no SetTariff, MoveBase or SetKey of one of its meters and no WithdrawSteps of its
    // steps.
    ensures imported_again { OverLives S.Store T.BlockTransform (λ lives office books.
        (earlier later : List Life) (life : Life) (before between : List Exchange) (e : Exchange)
        (rows : List Row) (new : ℕ) (again : Stamped)
        → (earlier ++ life ∷ later) ≡ lives → life.exchanges ≡ before ++ e ∷ between
        → e.request.request ≡ Request.Import rows → e.reply ≡ Ok (Answer.Imported new)
        → All (AsksNoChange rows) between → All (λ l. All (AsksNoChange rows) l.exchanges) later
        → again.request ≡ Request.Import rows → ImportsNothing books.forward office again) }
{
    life_law();
    history_law();
    meter_law();
    opening_law::<R>();
}

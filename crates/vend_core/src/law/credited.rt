ghost use Rattle.std.specs.Prelude.{◌≡◌, ◌-◌, ◌<◌, ◌≤◌, ◌^◌, ◌↔◌, ◌++◌, ◌∷◌, List, All};
ghost use Rattle.std.specs.Prelude.{Contains, map, sum_by};
ghost use Rattle.sts_fields.specs.Text.{Text};
ghost use Rattle.sts_token.specs.Fields.{TokenFields};
ghost use Rattle.sts_token.specs.Meter.{Accepts, Entry, WasAccepted, credit_of, entered};
ghost use Rattle.sts_token.specs.Token.{IsToken};
ghost use Rattle.vend_core.specs.Law.Life.{Life};
ghost use Rattle.office_rules.specs.Law.NewSale.{fields_of};
ghost use Rattle.office_rules.specs.Office.{Office};
ghost use Rattle.vend_core.specs.Law.SoldTokens.{AreMadeFor, SimMeter, accepted_of, digits_of};
ghost use Rattle.vend_core.specs.Law.SoldTokens.{later_sales_come, reads_by, tokens_of};
ghost use Rattle.office_rules.specs.declared.office.sale.Sale.{Sale};

use sts_fields::fresh_law;
use sts_token::{meter_law, token_law};
use tariff::purchase_law;

/// What a simulated meter credits that has the key of the office, and the transform under which its
/// lives take orders (`SellsUnder`).
///
/// A meter keeps its key from its first sale on; so its tokens were all written with the key that
/// the office has for it in the end (`AreMadeFor`).
pub fn credited_law()
    ensures written { (start : Office) (lives : List Life) (o : Office) (m : SimMeter)
        (sales : List Sale)
        → AreMadeFor start lives o m sales
        → All (λ s. IsToken m.forward m.key (fields_of s) s.digits) sales }

    // Until it is cleared, it credits each token at most once, whatever came before it and between.
    ensures at_most_once { (m : SimMeter) (before : List Entry) (between : List Text) (s : Sale)
        (first again : TokenFields)
        → Accepts (reads_by m) before s.digits first
        → ¬ Accepts (reads_by m) (before ++ entered s.digits ∷ map entered between) s.digits
        again }

    // The tokens come to it in any order, with repeats. One that had not come yet is accepted
    // exactly if those of fewer than fifty later sales came before it; so in the order of sale
    // every one is.
    ensures first_entry { (start : Office) (lives : List Life) (o : Office) (m : SimMeter)
        (sales came : List Sale) (s : Sale)
        → AreMadeFor start lives o m sales
        → All (Contains sales) came → Contains sales s → ¬ Contains came s
        → (Accepts (reads_by m) (tokens_of came) s.digits (fields_of s)
        ↔ (later_sales_come sales came s < 50)) }
    ensures in_order { (start : Office) (lives : List Life) (o : Office) (m : SimMeter)
        (earlier later : List Sale) (s : Sale)
        → AreMadeFor start lives o m (earlier ++ s ∷ later)
        → Accepts (reads_by m) (tokens_of earlier) s.digits (fields_of s) }

    // The credit is the sum of the sales accepted, each once: at most what was sold.
    ensures credit { (start : Office) (lives : List Life) (o : Office) (m : SimMeter)
        (sales came : List Sale)
        → AreMadeFor start lives o m sales → All (Contains sales) came
        → credit_of (reads_by m) (tokens_of came)
        ≡ sum_by (λ s. s.tenths) (accepted_of (reads_by m) (tokens_of came) sales) }
    ensures accepted { (start : Office) (lives : List Life) (o : Office) (m : SimMeter)
        (sales came : List Sale) (s : Sale)
        → AreMadeFor start lives o m sales → All (Contains sales) came
        → (Contains (accepted_of (reads_by m) (tokens_of came) sales) s
        ↔ (Contains sales s × WasAccepted (reads_by m) (map digits_of came) s.tid)) }
    ensures at_most_sold { (start : Office) (lives : List Life) (o : Office) (m : SimMeter)
        (sales came : List Sale)
        → AreMadeFor start lives o m sales → All (Contains sales) came
        → credit_of (reads_by m) (tokens_of came) ≤ sum_by (λ s. s.tenths) sales }
    ensures below_bound { (start : Office) (lives : List Life) (o : Office) (m : SimMeter)
        (sales : List Sale)
        → AreMadeFor start lives o m sales → sum_by (λ s. s.tenths) sales < 2 ^ 64 - 1 }
{
    fresh_law();
    purchase_law();
    token_law();
    meter_law();
}

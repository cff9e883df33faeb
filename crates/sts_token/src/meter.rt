ghost use Rattle.std.specs.Prelude.{◌≡◌, ◌≢◌, ◌-◌, ◌<◌, ◌≤◌, ◌^◌, ◌↔◌, ℕ, List, ◌∷◌, ◌++◌, All};
ghost use Rattle.std.specs.Prelude.{Contains, map, true};
ghost use Rattle.std.specs.List.{sum_by};
ghost use Rattle.sts_token.specs.Fields.{TokenFields};
ghost use Rattle.sts_token.specs.Meter.{Accepts, Entry, Reader, WasAccepted, credit_of, entered};
ghost use Rattle.sts_token.specs.Meter.{is_member, taken_over};
ghost use Rattle.sts_token.specs.Reading.{reading_of};
ghost use Rattle.sts_token.specs.Sold.{AreSold, entries_of, later_come, sold_accepted};
ghost use Rattle.sts_token.specs.Token.{BlockFunction, token_of};
ghost use Rattle.sts_fields.specs.Text.{Text};
ghost use Rattle.sts_token.specs.Transform.{IsTransform};

use crate::reading::read_law;
use sts_fields::amount_law;

/// What a meter does with the tokens entered into it, whatever the transform and the key.
pub fn meter_law()
    // Until the meter is cleared, an identifier is accepted at most once, and so is a token.
    ensures identifier_once { (read : Reader) (history : List Entry) (later : List Text)
        (first again : Text) (f g : TokenFields)
        → Accepts read history first f
        → Accepts read (history ++ entered first ∷ map entered later) again g
        → f.tid ≢ g.tid }
    ensures token_once { (read : Reader) (history : List Entry) (later : List Text) (text : Text)
        (f g : TokenFields)
        → Accepts read history text f
        → ¬ Accepts read (history ++ entered text ∷ map entered later) text g }
    ensures taken { (read : Reader) (texts : List Text) (t : ℕ)
        → ((is_member (taken_over read (map entered texts)).tids t ≡ true)
        ↔ WasAccepted read texts t) }

    // Tokens that were sold come to a new meter in any order, with repeats. One that had not come
    // yet is accepted exactly if fewer than fifty of those sold later came before it; so in order
    // all are.
    ensures first_entry { (forward inverse : BlockFunction) (key : ℕ) (sold came : List TokenFields)
        (f : TokenFields)
        → IsTransform forward inverse → key < 2 ^ 64 → AreSold sold → All (Contains sold) came
        → Contains sold f → ¬ Contains came f
        → (Accepts (reading_of inverse key) (entries_of forward key came) (token_of forward key f) f
        ↔ (later_come sold came f < 50)) }
    ensures in_order { (forward inverse : BlockFunction) (key : ℕ)
        (earlier later : List TokenFields)
        (f : TokenFields)
        → IsTransform forward inverse → key < 2 ^ 64 → AreSold (earlier ++ f ∷ later)
        → Accepts (reading_of inverse key) (entries_of forward key earlier)
        (token_of forward key f) f }

    // The credit is then the sum of the tokens accepted, each once. It never reaches its bound.
    ensures credit { (forward inverse : BlockFunction) (key : ℕ) (sold came : List TokenFields)
        → IsTransform forward inverse → key < 2 ^ 64 → AreSold sold → All (Contains sold) came
        → credit_of (reading_of inverse key) (entries_of forward key came)
        ≡ sum_by (λ f. f.tenths)
        (sold_accepted (reading_of inverse key) (entries_of forward key came) sold) }
    ensures at_most_sold { (forward inverse : BlockFunction) (key : ℕ)
        (sold came : List TokenFields)
        → IsTransform forward inverse → key < 2 ^ 64 → AreSold sold → All (Contains sold) came
        → credit_of (reading_of inverse key) (entries_of forward key came)
        ≤ sum_by (λ f. f.tenths) sold }
    ensures below_bound { (sold : List TokenFields)
        → AreSold sold → sum_by (λ f. f.tenths) sold < 2 ^ 64 - 1 }
{
    amount_law();
    read_law();
}

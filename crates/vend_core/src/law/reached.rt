ghost use Rattle.std.specs.Prelude.{List, All};
ghost use Rattle.sts_token.specs.Token.{KeepsRange, BlockFunction};
ghost use Rattle.office_rules.specs.Decision.Fold.{after, step};
ghost use Rattle.vend_core.specs.Law.Life.{AreLives, LeadTo, Life, SellsUnder};
ghost use Rattle.vend_core.specs.Law.Reached.{HasTokensOf, IsPlausible};
ghost use Rattle.office_rules.specs.Office.{IsOffice, Office, empty_office};
ghost use Rattle.office_rules.specs.Decision.Requests.{IsStamped};
ghost use Rattle.office_rules.specs.declared.decision.request.Stamped.{Stamped};

use sts_fields::{amount_law, fresh_law};
use sts_token::token_law;
use tariff::purchase_law;

/// What the rows of an office show of the requests that led to it.
///
/// An office whose rows break one of these rules is one that no requests lead to.
pub fn reached_law()
    // Each request leads from a plausible office to one, and so do all that lives are asked,
    // wherever they stop and whatever transforms they have.
    ensures empty { IsPlausible empty_office }
    ensures keeps { (forward : BlockFunction) (o : Office) (at : Stamped)
        → IsOffice o → IsStamped at → KeepsRange forward → IsPlausible o
        → IsPlausible (step forward o at) }
    ensures along { (forward : BlockFunction) (ats : List Stamped)
        → All IsStamped ats → KeepsRange forward → IsPlausible (after forward empty_office ats) }
    ensures lives { (lives : List Life) (o : Office) → AreLives lives o → IsPlausible o }
    ensures lives_from { (start : Office) (lives : List Life) (o : Office)
        → IsOffice start → LeadTo start lives o → IsPlausible start → IsPlausible o }

    // Where all orders are under one transform, the digits of each sale are the token of its fields
    // by its meter's key.
    ensures keeps_tokens { (forward : BlockFunction) (o : Office) (at : Stamped)
        → IsOffice o → IsStamped at → KeepsRange forward → HasTokensOf forward o
        → HasTokensOf forward (step forward o at) }
    ensures tokens_along { (forward : BlockFunction) (ats : List Stamped)
        → All IsStamped ats → KeepsRange forward
        → HasTokensOf forward (after forward empty_office ats) }
    ensures tokens_of_lives { (forward : BlockFunction) (lives : List Life) (o : Office)
        → AreLives lives o → All (SellsUnder forward) lives → HasTokensOf forward o }
    ensures tokens_of_lives_from { (forward : BlockFunction) (start : Office) (lives : List Life)
        (o : Office)
        → IsOffice start → LeadTo start lives o → All (SellsUnder forward) lives
        → HasTokensOf forward start → HasTokensOf forward o }
{
    amount_law();
    fresh_law();
    purchase_law();
    token_law();
}

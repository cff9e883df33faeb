ghost use Rattle.std.specs.Prelude.{◌≡◌, ◌⊎◌, ◌↔◌, ◌++◌, ◌∷◌, [], List, Result, Err, All, Contains};
ghost use Rattle.std.specs.Prelude.{length};
ghost use Rattle.sts_token.specs.Token.{KeepsRange, BlockFunction};
ghost use Rattle.office_rules.specs.Decision.Fold.{after, replies_to, reply, step};
ghost use Rattle.office_rules.specs.Law.Growth.{HasGrown};
ghost use Rattle.office_rules.specs.Law.Handed.{sales_of};
ghost use Rattle.vend_core.specs.Law.Life.{HandsOut, IsLife, Life, MayLeave};
ghost use Rattle.vend_core.specs.Law.LifeLaws.{IsRunning, IsReadingRequest, extended_along};
ghost use Rattle.vend_core.specs.Law.LifeLaws.{extended_by, opened};
ghost use Rattle.office_rules.specs.Office.{IsOffice, Office};
ghost use Rattle.office_rules.specs.Decision.Requests.{IsStamped};
ghost use Rattle.office_rules.specs.declared.decision.answer.Answer.{Answer};
ghost use Rattle.office_rules.specs.declared.decision.refusal.Refusal.{Refusal};
ghost use Rattle.office_rules.specs.declared.decision.request.Stamped.{Stamped};
ghost use Rattle.office_rules.specs.declared.office.sale.Sale.{Sale};

use sts_fields::fresh_law;
use sts_token::token_law;
use tariff::purchase_law;

/// What a request and its reply make of a life.
///
/// By it a store keeps a life: it begins when an office is opened, and each call adds an exchange.
pub fn life_law()
    // An office is opened: a life begins that goes on.
    ensures opens { (forward : BlockFunction) (o : Office)
        → KeepsRange forward → IsRunning (opened forward o) o }
    ensures running { (life : Life) (o p : Office)
        → IsRunning life o → (MayLeave life p ↔ (p ≡ o)) }

    // A request is granted or refused by the rules, or finds no memory: the life goes on.
    ensures served { (life : Life) (o : Office) (at : Stamped)
        → IsRunning life o → IsStamped at
        → IsRunning (extended_by life at (reply life.forward o at)) (step life.forward o at) }
    ensures no_memory { (life : Life) (o : Office) (at : Stamped)
        → IsRunning life o → IsStamped at → IsRunning (extended_by life at (Err Refusal.Memory)) o }

    // The store fails at a request: it may have been served or not, and there is no third way.
    ensures failed { (life : Life) (o : Office) (at : Stamped)
        → IsRunning life o → IsStamped at → IsLife (extended_by life at (Err Refusal.Store)) }
    ensures doubted { (life : Life) (o p : Office) (at : Stamped)
        → IsRunning life o → IsStamped at
        → (MayLeave (extended_by life at (Err Refusal.Store)) p
        ↔ ((p ≡ o) ⊎ (p ≡ step life.forward o at))) }

    // One that only reads leaves no doubt.
    ensures read { (life : Life) (o p : Office) (at : Stamped)
        → IsRunning life o → IsStamped at → IsReadingRequest at.request
        → (MayLeave (extended_by life at (Err Refusal.Store)) p ↔ (p ≡ o)) }

    // Once the store failed, at a request or in a call beside them, nothing changes any more.
    ensures stopped { (life : Life) (at : Stamped)
        → IsLife life → IsStamped at → IsLife (extended_by life at (Err Refusal.Stopped)) }
    ensures stays { (life : Life) (at : Stamped) (p : Office)
        → (MayLeave (extended_by life at (Err Refusal.Stopped)) p ↔ MayLeave life p) }

    // Many requests are one after another.
    ensures along_none { (life : Life) → extended_along life [] [] ≡ life }
    ensures along_one { (life : Life) (ats : List Stamped) (replies : List (Result Answer Refusal))
        (at : Stamped) (reply : Result Answer Refusal)
        → length ats ≡ length replies
        → extended_by (extended_along life ats replies) at reply
        ≡ extended_along life (ats ++ at ∷ []) (replies ++ reply ∷ []) }
    ensures served_along { (life : Life) (o : Office) (ats : List Stamped)
        → IsRunning life o → All IsStamped ats
        → IsRunning (extended_along life ats (replies_to life.forward o ats))
        (after life.forward o ats) }

    // A life hands out the sales of a reply, and those of its present office; what it handed out
    // it has handed out for good.
    ensures replied { (life : Life) (at : Stamped) (reply : Result Answer Refusal) (s : Sale)
        → Contains (sales_of reply) s → HandsOut (extended_by life at reply) s }
    ensures listed { (life : Life) (o : Office) (s : Sale)
        → IsRunning life o → Contains o.sales s → HandsOut life s }
    ensures for_good { (life : Life) (at : Stamped) (reply : Result Answer Refusal) (s : Sale)
        → HandsOut life s → HandsOut (extended_by life at reply) s }

    // What a life may leave is an office that has grown out of the one that it opened, and in it
    // stands each sale that the life handed out.
    ensures left { (life : Life) (o : Office)
        → IsLife life → IsOffice life.opening → MayLeave life o
        → IsOffice o × HasGrown life.opening o }
    ensures handed { (life : Life) (o : Office) (s : Sale)
        → IsLife life → IsOffice life.opening → MayLeave life o → HandsOut life s
        → Contains o.sales s }
{
    fresh_law();
    purchase_law();
    token_law();
}

ghost use Rattle.sts_token.specs.Token.{BlockFunction};
ghost use Rattle.office_rules.specs.Office.{Office};
ghost use Rattle.office_rules.specs.declared.decision.facts.Facts.{Facts};
ghost use Rattle.office_rules.specs.declared.decision.request.Stamped.{Stamped};
ghost use Rattle.office_decisions.specs.OverFacts.{DecidesByFacts};

/// An office that has the facts of a request decides it as it is decided by them.
pub fn facts_law()
    ensures { (forward : BlockFunction) (o : Office) (at : Stamped) (f : Facts)
        → DecidesByFacts forward o at f }
{}

ghost use Rattle.std.specs.Prelude.{◌≡◌, ◌≢◌, ◌≤◌, ◌<◌, ◌↔◌, ◌⊎◌, IfOk, IsOk, IsTrue, List};
ghost use Rattle.sts_fields.specs.Text.{Text};
ghost use Rattle.tariff.specs.declared.step.Step.{Step};
ghost use Rattle.tariff.specs.Steps.{IsSteps};
ghost use Rattle.tariff.specs.StepsFault.{FirstFault};
ghost use Rattle.tariff.specs.StepsText.{IsStepsText, steps_text};

use crate::fault::StepsFault;
use crate::step::Step;
use crate::{check, text};
use std::alloc::{AllocError, Global};
use std::marker::Model;

/// The steps of a tariff: one to eight, with rising ends (`docs/PROFILE.md`, "Tariffs").
///
/// Contracts see the list of steps.
#[derive(Debug, Drop)]
pub struct Steps {
    items: Vec<Step>,
}

impl Model for Steps {
    ghost use Rattle.std.specs.Prelude.{List};
    ghost use Rattle.tariff.specs.declared.step.Step.{Step};

    ghost Value = { List Step };

    ghost use Rattle.tariff.specs.Steps.{IsSteps};

    ghost view = { λ s. s.items.items };

    ghost invariant = { λ s. IsSteps s.items.items };
}

impl Steps {
    /// The greatest number of steps.
    pub const MAX: usize = check::MAX_STEPS;

    /// The steps in the order given, or their first fault.
    pub fn read(alloc: Global, steps: &[Step]) -> Result<Steps, StepsFault>
        ensures value { IfOk result (λ read. read ≡ steps.now) }
        ensures reads { (IsOk result ⊎ (result ≡ Err StepsFault.Memory)) ↔ IsSteps steps.now }

        // Each fault comes exactly where it is the first; these are no texts.
        ensures no_step { (result ≡ Err StepsFault.NoStep)
            ↔ FirstFault steps.now StepsFault.NoStep }
        ensures too_many { (result ≡ Err StepsFault.TooMany)
            ↔ FirstFault steps.now StepsFault.TooMany }
        ensures end_missing { (result ≡ Err StepsFault.EndMissing)
            ↔ FirstFault steps.now StepsFault.EndMissing }
        ensures not_rising { (result ≡ Err StepsFault.NotRising)
            ↔ FirstFault steps.now StepsFault.NotRising }
        ensures bad_price { (result ≡ Err StepsFault.BadPrice)
            ↔ FirstFault steps.now StepsFault.BadPrice }
        ensures never_bad_text { result ≢ Err StepsFault.BadText }
    {
        if let Some(fault) = check::first_fault(steps) {
            return Err(fault);
        }
        let items = Vec::from_slice(alloc, steps).map_err(|_| StepsFault::Memory)?;
        Ok(Steps { items })
    }

    /// The steps that a text is written from, or their first fault (`docs/PROFILE.md`, "Tariffs").
    pub fn of_text(alloc: Global, text: &[u8]) -> Result<Steps, StepsFault>
        ensures value { IfOk result (λ read. IsStepsText text.now read) }
        ensures reads { (IsOk result ⊎ (result ≡ Err StepsFault.Memory))
            ↔ ((steps : List Step) × IsStepsText text.now steps × IsSteps steps) }

        // Each fault comes exactly where the text is that of steps which have it first, or of no
        // steps.
        ensures bad_text { (result ≡ Err StepsFault.BadText)
            ↔ ((steps : List Step) → ¬ IsStepsText text.now steps) }
        ensures too_many { (result ≡ Err StepsFault.TooMany)
            ↔ ((steps : List Step) × IsStepsText text.now steps
            × FirstFault steps StepsFault.TooMany) }
        ensures end_missing { (result ≡ Err StepsFault.EndMissing)
            ↔ ((steps : List Step) × IsStepsText text.now steps
            × FirstFault steps StepsFault.EndMissing) }
        ensures not_rising { (result ≡ Err StepsFault.NotRising)
            ↔ ((steps : List Step) × IsStepsText text.now steps
            × FirstFault steps StepsFault.NotRising) }
        ensures bad_price { (result ≡ Err StepsFault.BadPrice)
            ↔ ((steps : List Step) × IsStepsText text.now steps
            × FirstFault steps StepsFault.BadPrice) }
        ensures never_no_step { result ≢ Err StepsFault.NoStep }
    {
        let Some(pieces) = text::read_pieces(text) else {
            return Err(StepsFault::BadText);
        };
        if pieces.count > Self::MAX {
            return Err(StepsFault::TooMany);
        }
        Self::read(alloc, &pieces.first[..pieces.count])
    }

    /// The steps.
    pub fn as_slice(&self) -> &[Step]
        ensures view { result.now ≡ self.now }
        ensures steps { IsSteps self.now }
    {
        self.items.as_slice()
    }
}

impl Clone for Steps {
    ghost is_clone = { λ s t. t ≡ s };

    /// The same steps, or an error for want of memory.
    fn clone(&self) -> Result<Steps, AllocError> {
        Ok(Steps {
            items: self.items.clone()?,
        })
    }
}

impl PartialEq for Steps {
    ghost use Rattle.std.specs.Cmp.{partial_equiv_from_equiv};
    ghost use Rattle.tariff.specs.StepsEq.{steps_eq, steps_eq-equiv};

    ghost eq = { steps_eq };

    fn eq(&self, other: &Steps) -> bool
        ensures value { result ≡ steps_eq self.now other.now }
        ensures same { IsTrue result ↔ (self.now ≡ other.now) }
    {
        self.as_slice() == other.as_slice()
    }

    ghost laws = { partial_equiv_from_equiv steps_eq-equiv };
}

impl Eq for Steps {
    ghost use Rattle.tariff.specs.StepsEq.{steps_eq-equiv};

    ghost laws = { steps_eq-equiv };
}

/// What the text of steps means: one list of steps for a text, and a text for each list of a
/// tariff.
pub fn steps_text_law()
    ensures one_list { (text : Text) (steps others : List Step)
        → IsStepsText text steps → IsStepsText text others → steps ≡ others }
    ensures one_text { (text other : Text) (steps : List Step)
        → IsStepsText text steps → IsStepsText other steps → text ≡ other }
    ensures each_list { (steps : List Step) → IsSteps steps → IsStepsText (steps_text steps) steps }
{}

ghost use Rattle.std.specs.Prelude.{◌≡◌, ℤ, List, ◌∷◌, Option, None, Some, ⊤};
ghost use Rattle.conversation.specs.Clock.{Gives, script_answers};

/// What says which moment it is, in Unix seconds.
pub trait Clock {
    /// The answers that it has yet to give, where they are known: after the last one it repeats it.
    ghost answers: { Self → Option (List ℤ) } = { λ _. None };

    /// It was read, and this is what it gave: so much is told of a clock whose answers nobody knows
    /// beforehand. By being read it comes to give nothing that it did not give before.
    ghost reads: { Self → ℤ → Type 0 } = { λ _ _. ⊤ };

    /// The present moment in Unix seconds, which may lie outside the moments of the office.
    fn now(&mut self) -> i64
        ensures gives { Gives (answers self.old) result (answers self.new) }
        ensures reads { reads self.old result }
        ensures stays { (given : ℤ) → reads self.new given → reads self.old given };
}

/// A clock whose answers are given beforehand. The last one is repeated.
#[derive(Clone, Copy, Debug)]
pub struct Script<'a> {
    first: i64,
    others: &'a [i64],
}

impl<'a> Script<'a> {
    /// The clock that answers the first and then the others.
    pub fn new(first: i64, others: &'a [i64]) -> Script<'a>
        ensures { script_answers result ≡ first ∷ others.now }
    {
        Script { first, others }
    }
}

impl Clock for Script<'_> {
    ghost answers = { λ script. Some (script_answers script) };

    fn now(&mut self) -> i64 {
        let now = self.first;
        if let Some((next, others)) = self.others.split_first() {
            self.first = *next;
            self.others = others;
        }
        now
    }
}

ghost use Rattle.std.specs.Prelude.{◌≡◌, ◌+◌, ◌<◌, ◌≤◌, ℕ, List, Bool};
ghost use Rattle.sim_meter.specs.Probe.{AreTrueFirst, true_count, value_at};

// How many values a probe has, and identifiers a meter keeps.
pub(crate) const PLACES: usize = 50;

/// Fifty truth values, none true after a false one, which are asked for one at a time.
pub trait Probe {
    /// The values, that of place 0 first.
    ghost values: { Self → List Bool };

    /// How often a value was asked for.
    ghost count: { Self → ℕ };

    /// The value at a place below 50.
    fn below(&mut self, place: usize) -> bool
        requires { place < 50 }
        ensures value { result ≡ value_at (values self.old) place }
        ensures same { values self.new ≡ values self.old }
        ensures counted { count self.new ≡ count self.old + 1 };

    ghost true_first: { (p : Self) → AreTrueFirst (values p) };
}

/// How many of the values are true, which is the place of the first false one. It asks for at most
/// six values.
pub fn place<P: Probe>(probe: &mut P) -> usize
    ensures value { result ≡ true_count (P.values probe.old) }
    ensures same { P.values probe.new ≡ P.values probe.old }
    ensures adds { P.count probe.old ≤ P.count probe.new }
    ensures at_most_six { P.count probe.new ≤ P.count probe.old + 6 }
{
    let mut low = 0;
    let mut high = PLACES;
    while low < high {
        let middle = low.midpoint(high);
        if probe.below(middle) {
            low = middle + 1;
        } else {
            high = middle;
        }
    }
    low
}

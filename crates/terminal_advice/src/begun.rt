ghost use Rattle.std.specs.Prelude.{ℕ, List, Option, None};

/// Stands for what a writer holds when the program begins to write to it.
pub trait Begun {
    /// Those bytes, where they are known.
    ghost held: { Option (List ℕ) };
}

/// That is not known, as of the standard error of a program.
pub struct Unseen;

impl Begun for Unseen {
    ghost held = { None };
}

use std::alloc::AllocError;

/// Why the words of a command, which `clap` took, were not read.
#[derive(Clone, Copy, Debug, PartialEq, Eq)]
pub enum BadWords {
    /// A value is outside its rule.
    Value,
    /// No office is named, or two; or a desk with an option that only a file has.
    Place,
    /// There was no room to keep what they say.
    Memory,
}

impl From<AllocError> for BadWords {
    ghost use Rattle.std.specs.Prelude.{◌≡◌};
    ghost use Rattle.command_line.specs.declared.words.BadWords.TheVariants.{Memory};

    ghost from_gives = { λ _ fault. fault ≡ Memory };

    fn from(_error: AllocError) -> BadWords {
        BadWords::Memory
    }
}

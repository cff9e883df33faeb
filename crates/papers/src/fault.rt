use std::alloc::AllocError;
use thiserror::Error;

/// Why a text was not handed to a writer.
#[derive(Clone, Copy, Debug, PartialEq, Eq, Hash, Error)]
pub enum TextFault {
    /// There was no room for the text, and nothing was written.
    #[error("out of memory")]
    Memory,
    /// The writer failed or took no byte, after a beginning of the text.
    #[error("the writer failed")]
    Write,
}

impl From<AllocError> for TextFault {
    ghost use Rattle.std.specs.Prelude.{◌≡◌};
    ghost use Rattle.papers.specs.declared.fault.TextFault.TheVariants.{Memory};

    ghost from_gives = { λ _ fault. fault ≡ Memory };

    fn from(_: AllocError) -> TextFault {
        TextFault::Memory
    }
}

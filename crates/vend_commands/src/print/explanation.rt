ghost use Rattle.std.specs.Prelude.{◌≡◌, ◌≢◌, [], IfOk, string_bytes};
ghost use Rattle.clap.specs.declared.error.kind.ErrorKind.{ErrorKind};
ghost use Rattle.sts_fields.specs.Text.{Text};

use clap::Error;
use clap::error::ErrorKind;
use std::alloc::{AllocError, Global};

/// What is to be said of words that are no command's.
pub(crate) trait Explanation {
    /// Which kind of fault the words have.
    ghost kind: { Self → ErrorKind };

    /// This is said of them.
    ghost says: { Self → Text → Type 0 };

    fn kind(&self) -> ErrorKind
        ensures { result ≡ kind self.now };

    /// The text, which is not empty.
    fn text(&self, alloc: Global) -> Result<String, AllocError>
        ensures says { IfOk result (λ text. says self.now (string_bytes text)) }
        ensures some { IfOk result (λ text. string_bytes text ≢ []) };
}

impl Explanation for Error {
    ghost use Rattle.std.specs.Prelude.{⊤};
    ghost use Rattle.clap.specs.Values.{kind_of};

    ghost kind = { kind_of };

    ghost says = { λ _ _. ⊤ };

    fn kind(&self) -> ErrorKind {
        self.kind()
    }

    fn text(&self, alloc: Global) -> Result<String, AllocError> {
        let text = format!(in alloc; "{self}")?;
        if text.is_empty() {
            return String::from_str(alloc, "invalid arguments\n");
        }
        Ok(text)
    }
}

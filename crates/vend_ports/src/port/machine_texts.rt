//! The files that a command reads on this machine.

ghost use Rattle.std.specs.Prelude.{◌≡◌, List, ℕ, ⊤, IfErr, IfOk};
ghost use Rattle.std.specs.IoError.{error_kind};
ghost use Rattle.std.specs.declared.io.ErrorKind.{ErrorKind as Kind};
ghost use Rattle.sts_fields.specs.Text.{Text};
ghost use Rattle.vend_ports.specs.port.Texts.{file_fault_of};

use crate::port::file_fault::FileFault;
use crate::port::text_files::TextFiles;
use std::fs;
use std::io::{self, ErrorKind};

/// Files that are read whole, by one call of the system. That the computer's does what is said here
/// no contract knows.
pub trait WholeFiles {
    /// The file of this name held these bytes when it was read.
    ghost holds: { Self → Text → List ℕ → Type 0 };

    /// It was not read, for an error of this kind.
    ghost fails: { Self → Text → Kind → Type 0 };

    /// All that a file holds.
    fn whole(&self, path: &str) -> io::Result<Vec<u8>>
        ensures holds { IfOk result (λ bytes. holds self.now path.now bytes.items) }
        ensures fails { IfErr result (λ error. fails self.now path.now (error_kind error)) };
}

impl WholeFiles for HostRuntime {
    ghost holds = { λ _ _ _. ⊤ };

    ghost fails = { λ _ _ _. ⊤ };

    fn whole(&self, path: &str) -> io::Result<Vec<u8>> {
        fs::read(self, path)
    }
}

/// The files of this machine.
#[derive(Drop)]
pub struct MachineTexts<'a, F> {
    pub files: &'a F,
}

impl<F: WholeFiles> TextFiles for MachineTexts<'_, F> {
    ghost reads = { λ texts path bytes. F.holds texts.files.now path bytes };

    ghost lacks = { λ texts path fault. (kind : Kind) × F.fails texts.files.now path kind
        × (fault ≡ file_fault_of kind) };

    ghost leaves = { λ _ _. ⊤ };

    fn read(self, path: &str) -> Result<Vec<u8>, FileFault> {
        match self.files.whole(path) {
            Ok(bytes) => Ok(bytes),
            Err(error) => Err(fault_of(error.kind())),
        }
    }

    fn leave<T: Drop>(it: T)
        ensures { ⊤ }
    {
        drop(it);
    }
}

// What is told of an error of this kind.
fn fault_of(kind: ErrorKind) -> FileFault
    ensures { result ≡ file_fault_of kind }
{
    match kind {
        ErrorKind::OutOfMemory => FileFault::Memory,
        _ => FileFault::Unreadable,
    }
}

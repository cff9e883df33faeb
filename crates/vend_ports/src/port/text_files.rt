ghost use Rattle.std.specs.Prelude.{List, ℕ, IfErr, IfOk};
ghost use Rattle.sts_fields.specs.Text.{Text};
ghost use Rattle.vend_ports.specs.declared.port.file_fault.FileFault.{FileFault};

use crate::port::file_fault::FileFault;

/// Files that are read whole: one of them, once.
pub trait TextFiles: Drop {
    /// The file of this name holds these bytes.
    ghost reads: { Self → Text → List ℕ → Type 0 };

    /// The file of this name is not read, for this fault.
    ghost lacks: { Self → Text → FileFault → Type 0 };

    /// None was read.
    ghost leaves: { (T : Type 0) → T → Type 0 };

    /// All that a file holds.
    fn read(self, path: &str) -> Result<Vec<u8>, FileFault>
        ensures reads { IfOk result (λ bytes. reads self path.now bytes.items) }
        ensures lacks { IfErr result (lacks self path.now) };

    /// Leaves them as they are. Then none can be read any more. Whatever this is given, it can do
    /// nothing with it.
    fn leave<T: Drop>(it: T)
        ensures { leaves T it };
}

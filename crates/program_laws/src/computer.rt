//! The files of the computer itself, as those of a machine.

ghost use Rattle.std.specs.Prelude.{List};
ghost use Rattle.sqlite_wal.specs.Files.{image_at};
ghost use Rattle.vend_core.specs.Law.Life.{Life};
ghost use Rattle.office_rules.specs.Office.{Office};
ghost use Rattle.program_laws.specs.runs.Here.{HoldsSo};
ghost use Rattle.program_laws.specs.runs.Steps.{IsOf};

use office_commands::{EachTry, MachineFile, machine_file_law};
use sqlite::{FileFrom, Start};
use sqlite_disk::Disk;
use vend_commands::OfficeFile;

/// What the program finds on the computer is of the lives that what `B` stands for is of. So of a
/// run on the computer's own files `run_law` asks nothing more than that and a clean disk.
pub fn computer_law<B: Start>()
    ensures { (start : Office) (lives : List Life) (office : _)
        → IsOf start lives (image_at B.Start)
        → HoldsSo ⟦<FileFrom<EachTry<B>> as Disk>⟧
        ⟦<MachineFile<'static, B> as OfficeFile>⟧ office (IsOf start lives) }
{
    machine_file_law::<B>();
}

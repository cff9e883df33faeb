//! What a command has of the machine beside its outputs: each a small trait that says what it
//! means. Whatever stands over them is proved for every machine.

ghost use Rattle.std.specs.Prelude.{◌≡◌, ◌≢◌, ⊤, ℕ, IfErr, IfNone, IfOk, IfSome, IsTrue};
ghost use Rattle.sqlite_wal.specs.Files.{seen_image};
ghost use Rattle.sqlite_wal.specs.Recovery.{Image};
ghost use Rattle.sts_fields.specs.Text.{Text};
ghost use Rattle.book_opening.specs.declared.fault.OpenFault.{OpenFault};
ghost use Rattle.office_commands.specs.declared.port.new_log.LogName.{LogName};

use crate::port::ended::Back;
use crate::port::new_log::LogName;
use crate::port::progress::Progress;
use books::OpenFault;
use conversation::Clock;
use sqlite_disk::Disk;
use vend_ports::{Door, Loopback, TextFiles};

/// Where the salts of a file's log come from: numbers that are drawn at random.
pub trait SaltSource: Drop {
    /// This number was drawn.
    ghost draws: { Self → ℕ → Type 0 };

    /// None could be drawn.
    ghost lacks: { Self → Type 0 };

    /// Draws a number.
    fn draw(&self) -> Option<u64>
        ensures draws { IfSome result (draws self.now) }
        ensures lacks { IfNone result (lacks self.now) };
}

/// The file that keeps an office, with its log. It is found once. While another program has it, it
/// may be waited for, for as many seconds as each clause names.
pub trait OfficeFile: Drop {
    /// What the two files are kept on.
    type Medium: Disk + Drop;

    /// What the salts of its log are drawn from.
    type Salts: SaltSource;

    /// What the files hold at a path: no code can read it.
    ghost image: { Self → Text → Image };

    /// At this path these were opened, the log and the database file, and so long they were waited
    /// for at the most.
    ghost finds: { Self → Text → (wait : ℕ) → Self.Medium → Self.Medium → Type 0 };

    /// At this path no files were opened, for this fault, though so long they were waited for.
    ghost fails: { Self → Text → (wait : ℕ) → OpenFault → Type 0 };

    /// At this path there was a database file, and these were opened, the log and that file.
    ghost meets: { Self → Text → (wait : ℕ) → Self.Medium → Self.Medium → Type 0 };

    /// At this path there was no file, and none was made.
    ghost misses: { Self → Text → (wait : ℕ) → Type 0 };

    /// The log and the database file were let go, as their last use left them.
    ghost lets_go: { (D : Type 0) → D → D → Type 0 };

    /// A look at the file at this path would make a log of this name, or none.
    ghost names: { Self → Text → LogName → Type 0 };

    /// A look at the log and the database file was ended: they were let go, and a log of this name,
    /// if the look made it, was removed.
    ghost ends_look: { (D : Type 0) → D → D → LogName → Type 0 };

    /// It was left as it was: no files were opened.
    ghost leaves: { (T : Type 0) → T → Type 0 };

    /// What the salts of its log are drawn from.
    fn salts(&self) -> Self::Salts;

    /// The name of the log that opening the file at a path would make, if it is there and has none.
    fn new_log(&self, path: &str) -> LogName
        ensures { names self.now path.now result };

    /// Opens the log and the database file at a path, or makes them where there is none. Waits up
    /// to so many seconds while another program has them.
    fn find(self, path: &str, wait: u32) -> Result<(Self::Medium, Self::Medium), OpenFault>
        ensures image { IfOk result (λ pair. seen_image Self.Medium.Disk pair.0 pair.1
            ≡ image self path.now) }
        ensures log { IfOk result (λ pair. IsTrue (Self.Medium.Disk.is_usable pair.0)) }
        ensures db { IfOk result (λ pair. IsTrue (Self.Medium.Disk.is_usable pair.1)) }
        ensures finds { IfOk result (λ pair. finds self path.now wait pair.0 pair.1) }
        ensures fails { IfErr result (fails self path.now wait) }
        // What was not opened was not looked into.
        ensures unnamed { IfErr result (λ fault. fault ≢ OpenFault.NotAnOffice) };

    /// Opens the log and the database file at a path where that file is there, and makes neither
    /// where it is not. Waits as `find` does.
    fn find_present(
        self,
        path: &str,
        wait: u32,
    ) -> Result<Option<(Self::Medium, Self::Medium)>, OpenFault>
        ensures image { IfOk result (λ found. IfSome found
            (λ pair. seen_image Self.Medium.Disk pair.0 pair.1 ≡ image self path.now)) }
        ensures log { IfOk result (λ found. IfSome found
            (λ pair. IsTrue (Self.Medium.Disk.is_usable pair.0))) }
        ensures db { IfOk result (λ found. IfSome found
            (λ pair. IsTrue (Self.Medium.Disk.is_usable pair.1))) }
        ensures meets { IfOk result (λ found. IfSome found
            (λ pair. meets self path.now wait pair.0 pair.1)) }
        ensures misses { IfOk result (λ found. IfNone found (misses self path.now wait)) }
        ensures fails { IfErr result (fails self path.now wait) }
        // What was not opened was not looked into.
        ensures unnamed { IfErr result (λ fault. fault ≢ OpenFault.NotAnOffice) };

    /// Lets the log and the database file go, or gives them back to whoever gave the port. Whatever
    /// this is given, it can do nothing else with it.
    fn let_go<D: Drop>(log: D, db: D) -> Back<D>
        ensures lets_go { lets_go D log db }
        ensures back { IfSome result (λ it. it ≡ (log, db)) };

    /// Lets the log and the database file go, which were only looked at, and removes a log of this
    /// name that the look has made. Whatever this is given, it can do nothing else with it.
    fn let_go_looked<D: Drop>(log: D, db: D, salts: &Self::Salts, new_log: &LogName)
        ensures { ends_look D log db new_log.now };

    /// Leaves it as it is. Then no files can be opened any more. Whatever this is given, it can do
    /// nothing with it.
    fn leave<T: Drop>(it: T)
        ensures { leaves T it };
}

/// A machine, by the type of each port that it gives. Whatever is said of a run is said over its
/// ports, and holds for every machine.
pub trait Machine {
    /// The file that keeps an office.
    type Office: OfficeFile;

    /// The files that are read whole.
    type Texts: TextFiles;

    /// What says which moment it is.
    type Clock: Clock + Drop;

    /// Where connections come in.
    type Door: Door;

    /// What the connection that a command makes comes of.
    type Loopback: Loopback;

    /// Whom a command that takes long tells how far it is.
    type Progress: Progress;
}

/// The ports of one run. A command uses up what it needs and leaves the rest: the file of an
/// office, the files that are read, the door and the connection with itself by a call that takes
/// them, whose fact no other call gives.
#[derive(Drop)]
pub struct Ports<M: Machine> {
    pub office: M::Office,
    pub texts: M::Texts,
    pub clock: M::Clock,
    pub door: M::Door,
    pub loopback: M::Loopback,
    pub progress: M::Progress,
    // It says nothing. By it the type of these ports holds what each of them tells, so that a
    // contract names all of it by the ports (`machine_of`).
    ghost telling: { ⊤ },
}

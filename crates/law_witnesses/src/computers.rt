//! The law of the computer's own files.
ghost use Rattle.std.specs.Prelude.{◌≡◌, ◌⊎◌, IfSome};
ghost use Rattle.books.specs.Keeps.{seen};
ghost use Rattle.sqlite.specs.State.{HasCleanDisk};

use books::{Books, opening_law};
use office_commands::{EachTry, MachineFile, OfficeFile};
use program_laws::computer_law;
use sqlite::{FileFrom, FileStore, Files, Options, Wary};
use std::rt::HostRuntime;
use std::test::Fail;
use std::{env, fs, process};
use sts_token::Plain;

/// Books on files of the computer, of which nothing was made yet as they were found.
type ComputerBooks = Books<FileStore<FileFrom<EachTry<Wary>>>, Plain>;

// Books on the files of a name that holds nothing, and the number of their first sale: it is 1, or
// the disk returned other bytes than were written.
fn opened_on_computer(rt: &HostRuntime, path: &str) -> Option<(u64, ComputerBooks)>
    ensures { IfSome result (λ it. (it.0 ≡ 1) ⊎ (¬ HasCleanDisk (seen it.1).state)) }
{
    opening_law::<FileStore<FileFrom<EachTry<Wary>>>>();
    computer_law::<Wary>();
    let port = MachineFile { rt, start: Wary };
    let Ok((log, db)) = port.find(path, 0) else {
        return None;
    };
    let files = Files { log, db };
    match Books::open_files(rt.alloc(), files, Options::new(7), Plain) {
        Ok(books) => Some((books.next_number(), books)),
        Err(_) => None,
    }
}

#[test]
fn a_new_file_of_the_computer_begins_with_one(rt: HostRuntime) -> Result<(), Fail> {
    let name = format!(in rt.alloc(); "law-witness-{}", process::id(rt.process()))?;
    let folder = env::temp_dir(&rt)?.join(rt.alloc(), name.as_str())?;
    fs::create_dir(&rt, folder.as_path())?;
    env::set_current_dir(&rt, folder.as_path())?;
    let (number, books) = opened_on_computer(&rt, "office.db").ok_or("not opened")?;
    drop(books);
    env::set_current_dir(&rt, "/")?;
    fs::remove_dir_all(&rt, folder.as_path())?;
    assert_eq!(rt; number, 1);
    Ok(())
}
